//! Edits that a topology accepts.
use cb_accept::NumberedEdit;
use cb_network::Edit;

/// An edit that a topology accepts, with the numbers that what it names has there. Once that topology has changed, the numbers
/// may be those of other instances, and the edit has to be decided again.
#[derive(Clone, Copy)]
pub struct AcceptedEdit<'a> {
    pub edit: &'a Edit,
    pub numbered: NumberedEdit,
}
