// What may happen to the model's hive, by the rules' words, and what it does.
use crate::model::{Change, Documents, Hive, INDEX, MOST, Place, Round, State, names_of};

/// A rule that may be made weaker.
#[derive(Clone, Copy, PartialEq, Eq)]
pub enum Rule {
    /// None is.
    Whole,
    /// The cursor is put though an id isn't done.
    CursorEarly,
    /// A clean state is put whatever is held.
    CleanEarly,
    /// A document is deleted before the index is put.
    DeleteEarly,
    /// The index is put before the other documents.
    IndexEarly,
    /// A dirty state forgets the names of the state before.
    NamesForgotten,
    /// A document is put beside a state that is of another commit, or isn't dirty.
    PutBesideOld,
}

/// What happens.
#[derive(Clone, Copy, PartialEq, Eq)]
pub enum Event {
    Commit(Change),
    Begin,
    Claim(usize),
    PutDirty(usize),
    PutDocument(usize, usize),
    DeleteDocument(usize, usize),
    PutClean(usize),
    Finish(usize),
    Rest(usize),
    Wake,
    PutCursor,
    Crash,
}

/// The documents of an id as they are to be at the target of its claim, none where it isn't claimed.
fn claim_of(hive: &Hive, id: usize) -> Option<(u64, Documents)> {
    let round = hive.round?;
    if id < 2 && round.places[id] == Place::Claimed {
        return Some((round.target, hive.made(id, round.target)));
    }
    None
}

// Whether an id has all these documents, but for one.
fn holds_but(held: &Documents, made: &Documents, but: usize) -> bool {
    for name in 0..4 {
        if name != but && made[name] > 0 && held[name] != made[name] {
            return false;
        }
    }
    true
}

/// Whether an id has nothing left to do up to a commit.
pub fn is_clean(hive: &Hive, id: usize, upto: u64) -> bool {
    if id >= 2 {
        return true;
    }
    let made = hive.made(id, upto);
    let last = hive.touched(id, upto);
    if hive.held[id] != made {
        return false;
    }
    match hive.states[id] {
        None => last == 0,
        Some(state) => {
            last > 0
                && !state.dirty
                && state.at <= upto
                && last <= state.at
                && state.names == names_of(&made)
        }
    }
}

// The names of a stored state.
fn names_in(state: Option<State>) -> [bool; 4] {
    match state {
        Some(state) => state.names,
        None => [false; 4],
    }
}

// A name is one of these or of those.
fn either(some: [bool; 4], others: [bool; 4]) -> [bool; 4] {
    [
        some[0] || others[0],
        some[1] || others[1],
        some[2] || others[2],
        some[3] || others[3],
    ]
}

// A dirty state at the target.
fn put_dirty(hive: &Hive, rule: Rule, id: usize) -> Option<Hive> {
    let (target, made) = claim_of(hive, id)?;
    let mut after = *hive;
    if id < 2 {
        let old = if rule == Rule::NamesForgotten {
            [false; 4]
        } else {
            names_in(hive.states[id])
        };
        after.states[id] = Some(State {
            at: target,
            dirty: true,
            names: either(old, names_of(&made)),
        });
    }
    Some(after)
}

// The stored state of a claimed id, where documents may be put and deleted beside it.
fn open_state(hive: &Hive, rule: Rule, id: usize, target: u64) -> Option<State> {
    if id >= 2 {
        return None;
    }
    let state = hive.states[id]?;
    if (state.at == target && state.dirty) || rule == Rule::PutBesideOld {
        return Some(state);
    }
    None
}

// A document of the target.
fn put_document(hive: &Hive, rule: Rule, id: usize, name: usize) -> Option<Hive> {
    let (target, made) = claim_of(hive, id)?;
    let state = open_state(hive, rule, id, target)?;
    if id >= 2 || name >= 4 || made[name] == 0 || !state.names[name] {
        return None;
    }
    let ready = name != INDEX
        || rule == Rule::IndexEarly
        || holds_but(&hive.held[id], &made, INDEX);
    if !ready {
        return None;
    }
    let mut after = *hive;
    after.held[id][name] = made[name];
    Some(after)
}

// A document that the target doesn't have.
fn delete_document(hive: &Hive, rule: Rule, id: usize, name: usize) -> Option<Hive> {
    let (target, made) = claim_of(hive, id)?;
    let state = open_state(hive, Rule::Whole, id, target)?;
    if id >= 2 || name >= 4 || made[name] > 0 || !state.names[name] {
        return None;
    }
    let held = hive.held[id];
    let done = if made[INDEX] > 0 {
        holds_but(&held, &made, 4)
    } else {
        name == INDEX || held[INDEX] == 0
    };
    if !done && rule != Rule::DeleteEarly {
        return None;
    }
    let mut after = *hive;
    after.held[id][name] = 0;
    Some(after)
}

// A clean state at the target.
fn put_clean(hive: &Hive, rule: Rule, id: usize) -> Option<Hive> {
    let (target, made) = claim_of(hive, id)?;
    if id >= 2 || (rule != Rule::CleanEarly && hive.held[id] != made) {
        return None;
    }
    let mut after = *hive;
    after.states[id] = Some(State {
        at: target,
        dirty: false,
        names: names_of(&made),
    });
    Some(after)
}

// An id of the round goes from one place to another.
fn moved(hive: &Hive, id: usize, from: Place, to: Place) -> Option<Hive> {
    let mut round = hive.round?;
    if id >= 2 || round.places[id] != from {
        return None;
    }
    round.places[id] = to;
    let mut after = *hive;
    after.round = Some(round);
    Some(after)
}

// A further commit, whose item is lawful: a publish of a version that isn't there, or a delete of one that is.
fn commit(hive: &Hive, change: Change) -> Option<Hive> {
    if hive.length >= MOST || change.version >= INDEX {
        return None;
    }
    let there = hive.made(change.id, hive.length)[change.version] > 0;
    if there == change.publish {
        return None;
    }
    let mut after = *hive;
    let at = hive.length as usize;
    if at < 6 {
        after.changes[at] = Some(change);
        after.length = hive.length.saturating_add(1);
    }
    Some(after)
}

// Where an id stands as a round begins.
fn first_place(hive: &Hive, id: usize, target: u64) -> Place {
    if hive.touched(id, target) > hive.cursor {
        Place::Waiting
    } else {
        Place::Outside
    }
}

// Whether the stored state isn't ahead of the target.
fn is_at_most(state: Option<State>, target: u64) -> bool {
    match state {
        Some(state) => state.at <= target,
        None => true,
    }
}

// A round to the catalog's end.
fn begin(hive: &Hive) -> Option<Hive> {
    let target = hive.length;
    let within = is_at_most(hive.states[0], target) && is_at_most(hive.states[1], target);
    if hive.round.is_some() || hive.cursor >= target || !within {
        return None;
    }
    let mut after = *hive;
    after.round = Some(Round {
        target,
        places: [first_place(hive, 0, target), first_place(hive, 1, target)],
    });
    Some(after)
}

// Whether the id is done, or wasn't taken up.
fn is_over(place: Place) -> bool {
    place == Place::Finished || place == Place::Outside
}

fn put_cursor(hive: &Hive, rule: Rule, ends: bool) -> Option<Hive> {
    let round = hive.round?;
    let over = is_over(round.places[0]) && is_over(round.places[1]);
    if !over && rule != Rule::CursorEarly {
        return None;
    }
    let mut after = *hive;
    after.cursor = round.target;
    if ends {
        after.round = None;
    }
    Some(after)
}

// The resting ids wait again, where none waits or is claimed.
fn wake(hive: &Hive) -> Option<Hive> {
    let mut round = hive.round?;
    for place in round.places {
        if place == Place::Waiting || place == Place::Claimed {
            return None;
        }
    }
    for id in 0..2 {
        if round.places[id] == Place::Resting {
            round.places[id] = Place::Waiting;
        }
    }
    let mut after = *hive;
    after.round = Some(round);
    Some(after)
}

fn finish(hive: &Hive, id: usize) -> Option<Hive> {
    let (target, _made) = claim_of(hive, id)?;
    if !is_clean(hive, id, target) {
        return None;
    }
    moved(hive, id, Place::Claimed, Place::Finished)
}

fn crash(hive: &Hive) -> Hive {
    let mut after = *hive;
    after.round = None;
    after
}

/// The hive after what happens and takes effect; none where it isn't allowed. A cursor's put that is told as
/// failed leaves the round.
pub fn happens(hive: &Hive, rule: Rule, event: Event, told: bool) -> Option<Hive> {
    match event {
        Event::Commit(change) => commit(hive, change),
        Event::Begin => begin(hive),
        Event::Claim(id) => moved(hive, id, Place::Waiting, Place::Claimed),
        Event::PutDirty(id) => put_dirty(hive, rule, id),
        Event::PutDocument(id, name) => put_document(hive, rule, id, name),
        Event::DeleteDocument(id, name) => delete_document(hive, rule, id, name),
        Event::PutClean(id) => put_clean(hive, rule, id),
        Event::Finish(id) => finish(hive, id),
        Event::Rest(id) => moved(hive, id, Place::Claimed, Place::Resting),
        Event::Wake => wake(hive),
        Event::PutCursor => put_cursor(hive, rule, told),
        Event::Crash => Some(crash(hive)),
    }
}
