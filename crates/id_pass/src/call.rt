// The calls of a pass, one after the other.
use fold_core::Body;
use pkg_meta::Text;
use std::collections::VecDeque;
use std::marker::Model;

/// A call on the hive's store.
#[derive(Drop)]
pub enum Call {
    /// Put what the body says under the name.
    Put { name: Text, body: Body },
    /// Delete what stands under the name.
    Remove { name: Text },
}

/// What is left of a pass. A contract sees it as the list of the calls left.
#[derive(Drop)]
pub struct Plan {
    calls: VecDeque<Call>,
}

impl Model for Plan {
    ghost use Rattle.std.specs.Prelude.{List};
    ghost use Rattle.id_pass.specs.declared.call.Call.{Call};

    ghost Value = { List Call };

    ghost view = { λ p. p.calls.items };
}

impl Plan {
    ghost use Rattle.std.specs.Prelude.{◌≡◌, drop, option_map, slice_get};

    // A pass of these calls.
    pub(crate) fn of(calls: Vec<Call>) -> Self
        ensures { result ≡ calls.items }
    {
        Plan {
            calls: VecDeque::from(calls),
        }
    }

    /// The next call, none at the end.
    pub fn next_call(&self) -> Option<&Call>
        ensures { option_map (λ call. call.now) result ≡ slice_get self.now 0 }
    {
        self.calls.front()
    }

    /// Goes on behind the next call. At the end nothing changes.
    pub fn advance(&mut self)
        ensures { self.new ≡ drop 1 self.old }
    {
        self.calls.pop_front();
    }
}
