// Whether the model's hive is sound, computed part by part.
use crate::events::is_clean;
use crate::model::{Documents, Hive, INDEX, Place, State, names_of};

// Whether each document held has a name of the state, and each that `at` makes.
fn covers(hive: &Hive, id: usize, state: &State) -> bool {
    if id >= 2 {
        return true;
    }
    let held = names_of(&hive.held[id]);
    let made = names_of(&hive.made(id, state.at));
    for name in 0..4 {
        if (held[name] || made[name]) && !state.names[name] {
            return false;
        }
    }
    true
}

// Whether a stored state fits the catalog and the cursor.
fn fits(hive: &Hive, id: usize, state: &State) -> bool {
    if id >= 2 {
        return true;
    }
    let made = hive.made(id, state.at);
    let exact = state.dirty || (hive.held[id] == made && state.names == names_of(&made));
    let ahead = state.at <= hive.cursor || hive.cursor < hive.touched(id, state.at);
    hive.touched(id, state.at) > 0
        && state.at <= hive.length
        && covers(hive, id, state)
        && hive.touched(id, hive.cursor) <= state.at
        && exact
        && ahead
        && (!state.dirty || hive.cursor < state.at)
}

fn has_state(hive: &Hive, id: usize) -> bool {
    if id >= 2 {
        return true;
    }
    match hive.states[id] {
        None => hive.touched(id, hive.cursor) == 0 && hive.held[id] == [0u64; 4],
        Some(state) => fits(hive, id, &state),
    }
}

// Whether a prefix that reaches the cursor has this under the name.
fn is_fresh(hive: &Hive, id: usize, name: usize) -> bool {
    if id >= 2 || name >= 4 {
        return true;
    }
    for prefix in hive.cursor..hive.length.saturating_add(1) {
        if hive.made(id, prefix)[name] == hive.held[id][name] {
            return true;
        }
    }
    false
}

// Whether each document that is made has one of its name held.
fn has_names(held: &Documents, made: &Documents) -> bool {
    for name in 0..4 {
        if made[name] > 0 && held[name] == 0 {
            return false;
        }
    }
    true
}

// Whether an index that is held is one of a prefix that reaches the cursor, with all of its names.
fn is_linked(hive: &Hive, id: usize) -> bool {
    if id >= 2 || hive.held[id][INDEX] == 0 {
        return true;
    }
    for prefix in hive.cursor..hive.length.saturating_add(1) {
        let made = hive.made(id, prefix);
        if made[INDEX] == hive.held[id][INDEX] && has_names(&hive.held[id], &made) {
            return true;
        }
    }
    false
}

// What a standing round says of an id.
fn is_in_round(hive: &Hive, id: usize) -> bool {
    let Some(round) = hive.round else {
        return true;
    };
    if id >= 2 {
        return true;
    }
    let place = round.places[id];
    let due = hive.cursor < hive.touched(id, round.target);
    let exact = hive.cursor < round.target && due == (place != Place::Outside);
    let over = hive.cursor == round.target && (place == Place::Outside || place == Place::Finished);
    let most = match hive.states[id] {
        Some(state) => state.at <= round.target,
        None => true,
    };
    let finished = place != Place::Finished || is_clean(hive, id, round.target);
    round.target <= hive.length && (exact || over) && most && finished
}

fn is_sound_id(hive: &Hive, id: usize) -> bool {
    has_state(hive, id)
        && is_fresh(hive, id, 0)
        && is_fresh(hive, id, 1)
        && is_fresh(hive, id, 2)
        && is_fresh(hive, id, INDEX)
        && is_linked(hive, id)
        && is_in_round(hive, id)
}

/// Whether the hive is sound.
pub fn is_sound(hive: &Hive) -> bool {
    hive.cursor <= hive.length && is_sound_id(hive, 0) && is_sound_id(hive, 1)
}
