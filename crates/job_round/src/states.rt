// The stored state of an id.
ghost use Rattle.std.specs.Prelude.{◌≡◌, ◌==◌, ◌∷◌, [], true, IfErr, IfOk, IfSome, option_map};
ghost use Rattle.std.specs.FinMap.{get};
ghost use Rattle.std.specs.List.{list_all, position};
ghost use Rattle.blob_store.specs.Events.{Get};
ghost use Rattle.fold_core.specs.Docs.{before_slash};
ghost use Rattle.hive_state.specs.State.{state_name};
ghost use Rattle.job_round.specs.States.{IsNoState, IsReadAsState, IsStoredState, at_in, fits_id, is_owned};
ghost use Rattle.job_round.specs.Stops.{IsOfHive, RunsTo};

use crate::calls::get;
use crate::stop::Stop;
use blob_store::Blobs;
use hive_state::{DocErr, StateDoc, read_state, state_name};
use pkg_meta::{NoMemory, Text};
use std::alloc::Global;

fn slash_at(bytes: &[u8]) -> Option<usize>
    ensures { result ≡ position (λ b. b == 47) bytes.now }
{
    bytes.iter().position(|byte| *byte == b'/')
}

// The bytes before the first `/`.
fn before_slash(bytes: &[u8]) -> Option<&[u8]>
    ensures { option_map (λ front. front.now) result ≡ before_slash bytes.now }
{
    match slash_at(bytes) {
        Some(at) => Some(&bytes[..at]),
        None => None,
    }
}

// Whether the name is that of a document of the id with this key.
fn is_owned(key: &str, name: &str) -> bool
    ensures { result ≡ is_owned key.now name.now }
{
    let [b'd', b'/', rest @ ..] = name.as_bytes() else {
        return false;
    };
    match before_slash(rest) {
        Some(front) => key.as_bytes() == front,
        None => false,
    }
}

fn are_owned(key: &str, names: &[Text]) -> bool
    ensures { result ≡ list_all (is_owned key.now) names.now }
{
    names.iter().all(|name| is_owned(key, name.as_str()))
}

// Whether an id may have this state at the target.
fn fits_id(key: &str, target: u32, state: &StateDoc) -> bool
    ensures { result ≡ fits_id key.now target state.now }
{
    state.at <= target && are_owned(key, state.names.as_slice())
}

// The state that the bytes are, if the id may have it at the target.
fn state_in(
    alloc: Global,
    key: &str,
    target: u32,
    bytes: &[u8],
) -> Result<Option<StateDoc>, NoMemory>
    ensures { IfOk result (IsReadAsState key.now target bytes.now) }
{
    match read_state(alloc, bytes) {
        Ok(state) if fits_id(key, target, &state) => Ok(Some(state)),
        Ok(_) | Err(DocErr::Damaged) => Ok(None),
        Err(DocErr::Memory) => Err(NoMemory),
    }
}

/// The stored state of the id with this key. A state beyond the target, and one that names documents of
/// another id, is damaged too.
pub(crate) fn state_of<B: Blobs>(
    alloc: Global,
    area: &mut B,
    key: &str,
    target: u32,
) -> Result<Option<StateDoc>, Stop>
    ensures runs { RunsTo (Get (state_name key.now) ∷ []) (B.seen area.old) (B.seen area.new) result }
    ensures stored { IfOk result (λ stored. IfSome (B.seen area.old).held (λ m. IsStoredState key.now target (get m (state_name key.now)) stored)) }
    ensures same { (B.seen area.new).held ≡ (B.seen area.old).held }
    ensures fitting { IfOk result (λ stored. IfSome stored (λ s. fits_id key.now target s ≡ true)) }
    ensures cause { IfErr result (IsOfHive (λ name. (name ≡ state_name key.now)
        × IfSome (B.seen area.old).held (λ m. IsNoState key.now target (get m (state_name key.now))))) }
{
    let name = state_name(alloc, key)?;
    let Some(bytes) = get(alloc, area, name.as_str())? else {
        return Ok(None);
    };
    match state_in(alloc, key, target, bytes.as_slice())? {
        Some(state) => Ok(Some(state)),
        None => Err(Stop::HiveDamaged(name)),
    }
}

/// The last commit that a state has taken up.
pub(crate) fn at_in(stored: &Option<StateDoc>) -> u32
    ensures { result ≡ at_in stored.now }
{
    match stored {
        Some(state) => state.at,
        None => 0,
    }
}
