//! Edits by numbers.
use cb_instances::InstanceId;
use cb_model::{ClassId, EventId, RelId};

/// An edit by the numbers of what it names. What a new instance is called stands in the edit alone.
#[derive(Clone, Copy)]
pub enum NumberedEdit {
    Create {
        class: ClassId,
    },
    Delete {
        id: InstanceId,
    },
    Link {
        from: InstanceId,
        rel: RelId,
        to: InstanceId,
    },
    Unlink {
        from: InstanceId,
        rel: RelId,
        to: InstanceId,
    },
    Mute {
        id: InstanceId,
        event: EventId,
    },
    Unmute {
        id: InstanceId,
        event: EventId,
    },
}
