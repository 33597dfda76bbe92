// A hive over a catalog: two ids with three versions each, one item a commit, and documents that are numbers.

/// An item: a publish of a version of an id, or its delete.
#[derive(Clone, Copy, PartialEq, Eq)]
pub struct Change {
    pub id: usize,
    pub version: usize,
    pub publish: bool,
}

/// The documents of an id by name: those of its three versions, and the index. 0 is none.
pub type Documents = [u64; 4];

/// The index's name.
pub const INDEX: usize = 3;

/// What is stored of an id: how far it has taken the catalog in, whether documents of an earlier state may be
/// left, and which documents may be held.
#[derive(Clone, Copy, PartialEq, Eq)]
pub struct State {
    pub at: u64,
    pub dirty: bool,
    pub names: [bool; 4],
}

/// Where an id stands in a round.
#[derive(Clone, Copy, PartialEq, Eq)]
pub enum Place {
    Outside,
    Waiting,
    Claimed,
    Finished,
    Resting,
}

#[derive(Clone, Copy, PartialEq, Eq)]
pub struct Round {
    pub target: u64,
    pub places: [Place; 2],
}

/// The most commits of a catalog.
pub const MOST: u64 = 6;

/// A catalog, commit by commit.
pub type Changes = [Option<Change>; 6];

/// A hive over its catalog.
#[derive(Clone, Copy, PartialEq, Eq)]
pub struct Hive {
    pub changes: Changes,
    /// The number of commits.
    pub length: u64,
    pub states: [Option<State>; 2],
    pub held: [Documents; 2],
    pub cursor: u64,
    pub round: Option<Round>,
}

/// The number of the last of the first commits that has an item of the id, 0 where none has.
pub fn touched(changes: &Changes, id: usize, upto: u64) -> u64 {
    let mut last = 0u64;
    for (before, change) in changes.iter().enumerate() {
        let number = (before as u64).saturating_add(1);
        if number <= upto && is_of(change, id) {
            last = number;
        }
    }
    last
}

// Whether the commit has an item of the id.
fn is_of(change: &Option<Change>, id: usize) -> bool {
    match change {
        Some(change) => change.id == id,
        None => false,
    }
}

/// The documents that the first commits make of an id.
pub fn documents(changes: &Changes, id: usize, upto: u64) -> Documents {
    let mut made = [0u64; 4];
    for (before, change) in changes.iter().enumerate() {
        let number = (before as u64).saturating_add(1);
        if number <= upto {
            made = with_change(made, *change, id, number);
        }
    }
    made[INDEX] = index_of(&made, touched(changes, id, upto));
    made
}

// The documents of an id's versions with a further commit.
fn with_change(made: Documents, change: Option<Change>, id: usize, number: u64) -> Documents {
    let mut after = made;
    if let Some(change) = change {
        if change.id == id && change.version < INDEX {
            after[change.version] = if change.publish { number } else { 0 };
        }
    }
    after
}

// The index tells the last commit of the id and which versions there are; without a version there is none.
fn index_of(made: &Documents, last: u64) -> u64 {
    let versions = bit(made[0], 1) | bit(made[1], 2) | bit(made[2], 4);
    if versions == 0 {
        return 0;
    }
    last.saturating_mul(8).saturating_add(versions)
}

// A version's share of what the index tells.
fn bit(document: u64, value: u64) -> u64 {
    if document > 0 { value } else { 0 }
}

/// The names of these documents.
pub fn names_of(documents: &Documents) -> [bool; 4] {
    [
        documents[0] > 0,
        documents[1] > 0,
        documents[2] > 0,
        documents[3] > 0,
    ]
}

impl Hive {
    pub fn new() -> Self {
        Hive {
            changes: [None; 6],
            length: 0,
            states: [None; 2],
            held: [[0; 4]; 2],
            cursor: 0,
            round: None,
        }
    }

    /// The documents that the first commits make of an id.
    pub fn made(&self, id: usize, upto: u64) -> Documents {
        documents(&self.changes, id, upto)
    }

    /// The number of the last of the first commits that has an item of the id.
    pub fn touched(&self, id: usize, upto: u64) -> u64 {
        touched(&self.changes, id, upto)
    }
}
