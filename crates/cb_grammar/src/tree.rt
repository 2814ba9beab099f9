//! What a text of classes says.
use cb_model::{List, Name};

/// The most places of a rule's path.
pub const LONGEST_PATH: usize = 4;

/// A name, with its line, counted from 1, and the position of its first byte in the text.
#[derive(Drop)]
pub struct Token {
    pub name: Name,
    pub line: u32,
    pub start: u32,
}

/// A place of a rule's path: the name of a relation, and whether it has the plus.
#[derive(Drop)]
pub struct PlaceToken {
    pub name: Token,
    pub plus: bool,
}

/// A member of a class.
#[derive(Drop)]
pub enum Member {
    Event {
        name: Token,
        problem: bool,
        symptom: bool,
    },
    Relation {
        name: Token,
        target: Token,
        many: bool,
        inverse: Token,
    },
    Rule {
        name: Token,
        cause: Token,
        path: List<PlaceToken>,
        effect: Token,
    },
    Block {
        name: Token,
    },
    Hide {
        name: Token,
    },
}

/// A class, with the class that it extends.
#[derive(Drop)]
pub struct ClassDecl {
    pub name: Token,
    pub parent: Option<Token>,
    pub members: List<Member>,
}

/// The classes of a text, in its order.
#[derive(Drop)]
pub struct Tree {
    pub classes: List<ClassDecl>,
}
