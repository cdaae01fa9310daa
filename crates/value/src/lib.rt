// The net as anybody may hold it and hand it in: its types, what a value says and which value a command hands back (specs/), and the laws that tie
// the two (proofs/). No code but what a net rule is told as.
#![tactic(auto)]

ghost use Rattle.std.specs.Prelude.{◌≡◌};
ghost use Rattle.model.specs.declared.Refusal.{Refusal};
ghost use Rattle.value.specs.View.{rule_number};

use ids::{Level, Node, Site, Ticket};
use model::{Plan, Refusal};

// An open call. One without a parent has no ticket there.
#[derive(Clone, Copy, PartialEq, Eq)]
pub struct Call {
    pub ticket: Ticket,
    pub parent: Ticket,
    pub node: Node,
    pub active: bool,
}

// The plan; the open calls in the order of their opening, and how many there are; and for each site the active calls of each level, those of site s
// from place 64 s on. A place behind the open calls is spare: what it holds is not looked at, and a command leaves zeros and `false` there.
// kept: an array with its count, since nothing here is on a heap, and anybody may hand in a count past the array, which is a rule of its own.
#[derive(Clone, Copy, PartialEq, Eq)]
pub struct Net {
    pub plan: Plan,
    pub calls: [Call; Ticket::OPEN],
    pub used: usize,
    pub counts: [u8; Site::COUNT * Site::THREADS],
}

// The net rules of document 01, each by what breaks it: its place in their sentence there is the rule's number.
#[derive(Clone, Copy, PartialEq, Eq)]
pub enum NetRule {
    Plan,
    Tickets,
    Nodes,
    Parents,
    Counts,
    Sites,
    Waiting,
    TooManyOpen,
}

impl From<NetRule> for u8 {
    ghost from_gives = { λ rule number. number ≡ rule_number rule };

    fn from(rule: NetRule) -> u8 {
        match rule {
            NetRule::Plan => 1,
            NetRule::Tickets => 2,
            NetRule::Nodes => 3,
            NetRule::Parents => 4,
            NetRule::Counts => 5,
            NetRule::Sites => 6,
            NetRule::Waiting => 7,
            NetRule::TooManyOpen => 9,
        }
    }
}

// "A net is handed in, and it or its plan breaks a net rule": one refusal, whichever rule that is.
impl From<NetRule> for Refusal {
    ghost from_gives = { λ _ why. why ≡ Refusal.BrokenNet };

    fn from(_rule: NetRule) -> Refusal {
        Refusal::BrokenNet
    }
}

// What a start, a call, a return or a taking back is answered.
#[derive(Clone, Copy, PartialEq, Eq)]
pub enum CommandAnswer {
    Active,
    // The level in the way: the highest full one at or below the call's own.
    Waiting(Level),
    // The ticket that was admitted, or none.
    Ended(Ticket),
}

#[derive(Clone, Copy)]
pub struct Commanded {
    pub answer: Result<CommandAnswer, Refusal>,
    pub net: Net,
}

// What a question is answered of a ticket.
#[derive(Clone, Copy, PartialEq, Eq)]
pub enum Standing {
    Active,
    Waiting,
    NotOpen,
}

// The net that is made from a plan; beside a refusal it is the empty net of the empty plan.
#[derive(Clone, Copy)]
pub struct MadeNet {
    pub answer: Result<(), Refusal>,
    pub net: Net,
}
