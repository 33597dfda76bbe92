// Walks: events drawn at random, each with a fate of its own.
use crate::events::{Event, Rule, happens, is_clean};
use crate::model::{Change, Hive};
use crate::random::Random;
use crate::sound::is_sound;

// How often each kind of event took effect.
#[derive(Clone, Copy)]
struct Seen {
    kinds: [u64; 12],
    settled: u64,
}

fn small(random: &mut Random, limit: u64) -> usize {
    random.below(limit) as usize
}

// A commit now and then, so that passes come to their ends between two.
fn commit(random: &mut Random, id: usize) -> (usize, Event) {
    if random.one_in(4) {
        let version = small(random, 3);
        let publish = random.one_in(2);
        (
            0,
            Event::Commit(Change {
                id,
                version,
                publish,
            }),
        )
    } else {
        (7, Event::Finish(id))
    }
}

fn draw(random: &mut Random) -> (usize, Event) {
    let id = small(random, 2);
    match random.below(16) {
        0 => commit(random, id),
        1 => (1, Event::Begin),
        2 => (2, Event::Claim(id)),
        3 | 4 => (3, Event::PutDirty(id)),
        5 | 6 | 7 => (4, Event::PutDocument(id, small(random, 4))),
        8 | 9 => (5, Event::DeleteDocument(id, small(random, 4))),
        10 => (6, Event::PutClean(id)),
        11 => (7, Event::Finish(id)),
        12 => (8, Event::Rest(id)),
        13 => (9, Event::Wake),
        14 => (10, Event::PutCursor),
        _ => {
            if random.one_in(8) {
                (11, Event::Crash)
            } else {
                (10, Event::PutCursor)
            }
        }
    }
}

fn counted(seen: &mut Seen, kind: usize) {
    if kind < 12 {
        seen.kinds[kind] = seen.kinds[kind].saturating_add(1);
    }
}

// An event that is allowed, as far as some draws find one, with its kind and what it makes of the hive.
fn allowed(hive: &Hive, rule: Rule, random: &mut Random, told: bool) -> Option<(usize, Hive)> {
    for _ in 0..12 {
        let (kind, event) = draw(random);
        if let Some(after) = happens(hive, rule, event, told) {
            return Some((kind, after));
        }
    }
    None
}

// One event with a fate: done, failed with or without effect. It answers the hive afterwards.
fn turn(hive: Hive, rule: Rule, random: &mut Random, seen: &mut Seen) -> Hive {
    let told = !random.one_in(6);
    let took = told || random.one_in(2);
    let Some((kind, after)) = allowed(&hive, rule, random, told) else {
        return hive;
    };
    if !took {
        return hive;
    }
    counted(seen, kind);
    if kind == 10
        && told
        && is_clean(&after, 0, after.cursor)
        && is_clean(&after, 1, after.cursor)
    {
        seen.settled = seen.settled.saturating_add(1);
    }
    after
}

// A walk of some turns from the empty hive: whether the hive was sound after each.
fn walk(rule: Rule, random: &mut Random, turns: u64, seen: &mut Seen) -> bool {
    let mut hive = Hive::new();
    for _ in 0..turns {
        hive = turn(hive, rule, random, seen);
        if !is_sound(&hive) {
            return false;
        }
    }
    true
}

// How many walks, of this many turns each, meet a hive that isn't sound.
fn unsound(rule: Rule, walks: u64, turns: u64, seen: &mut Seen) -> u64 {
    let mut random = Random::new(7);
    let mut found = 0u64;
    for _ in 0..walks {
        if !walk(rule, &mut random, turns, seen) {
            found = found.saturating_add(1);
        }
    }
    found
}

fn nothing_seen() -> Seen {
    Seen {
        kinds: [0; 12],
        settled: 0,
    }
}

// Whether each kind was seen often.
fn all_often(seen: &Seen) -> bool {
    for count in &seen.kinds {
        if *count < 100 {
            return false;
        }
    }
    true
}

#[test]
fn rules_keep_hives_sound(rt: HostRuntime) {
    let mut seen = nothing_seen();
    assert!(rt; unsound(Rule::Whole, 4_000, 100, &mut seen) == 0);
    assert!(rt; all_often(&seen));
    assert!(rt; seen.settled == seen.kinds[10] || seen.settled > 100);
}

#[test]
fn a_cursor_that_comes_early_shows(rt: HostRuntime) {
    assert!(rt; unsound(Rule::CursorEarly, 400, 100, &mut nothing_seen()) > 0);
}

#[test]
fn a_clean_state_that_comes_early_shows(rt: HostRuntime) {
    assert!(rt; unsound(Rule::CleanEarly, 400, 100, &mut nothing_seen()) > 0);
}

#[test]
fn a_delete_before_the_index_shows(rt: HostRuntime) {
    assert!(rt; unsound(Rule::DeleteEarly, 400, 100, &mut nothing_seen()) > 0);
}

#[test]
fn an_index_that_comes_early_shows(rt: HostRuntime) {
    assert!(rt; unsound(Rule::IndexEarly, 400, 100, &mut nothing_seen()) > 0);
}

#[test]
fn forgotten_names_show(rt: HostRuntime) {
    assert!(rt; unsound(Rule::NamesForgotten, 400, 100, &mut nothing_seen()) > 0);
}

#[test]
fn a_put_beside_an_old_state_shows(rt: HostRuntime) {
    assert!(rt; unsound(Rule::PutBesideOld, 400, 100, &mut nothing_seen()) > 0);
}
