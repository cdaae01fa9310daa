// The meaning of what the library answers, for a reader to believe: the types that everything speaks of, their definitions in specs/ and the
// theorems in proofs/. No code but conversions: the numbers of the refusals, and one refusal told as another.
#![tactic(auto)]

ghost use Rattle.std.specs.Prelude.{◌≡◌};
ghost use Rattle.model.specs.PlanValue.{refusal_number};
ghost use Rattle.model.specs.Refusal.{refusal_told};
ghost use Rattle.model.specs.declared.RoomRefused.{RoomRefused};

use ids::{Level, Node, Site};

// Where a walk down the tree of counts ends, and how many tree nodes it stood on.
#[derive(Clone, Copy)]
pub struct Walked {
    pub leaf: u8,
    pub stood: u8,
}

// The highest admissible level at a site, or none, and the tree nodes that the walk stood on.
#[derive(Clone, Copy)]
pub struct Highest {
    pub level: Option<Level>,
    pub stood: u8,
}

// The site book refuses: the threads and the counts are not those of a lawful site, or the asked level is not below the threads.
#[derive(Clone, Copy, PartialEq, Eq)]
pub struct SiteRefused;

// Whether a call of some level may be admitted, and if not the level that is in the way: the highest full one at or below it.
// kept: an Option of the level in the way would read `None` where a call is admitted.
#[derive(Clone, Copy, PartialEq, Eq)]
pub enum Admission {
    Admitted,
    Waits(Level),
}

// Why the status page has no figure: a refused site has none at any level, and else a level that is not below the threads.
#[derive(Clone, Copy, PartialEq, Eq)]
pub enum RoomRefused {
    Site,
    NoSuchLevel,
}

impl From<SiteRefused> for RoomRefused {
    ghost from_gives = { λ _ why. why ≡ RoomRefused.Site };

    fn from(_why: SiteRefused) -> RoomRefused {
        RoomRefused::Site
    }
}

// A call edge.
#[derive(Clone, Copy, PartialEq, Eq, PartialOrd, Ord)]
pub struct Edge {
    pub caller: Node,
    pub callee: Node,
}

// A plan by its numbers: the threads of each site, 0 where it has no record; the site of each node, `Plan::NOWHERE` where it has no record (any
// other number is a record, also where it is no site), and its level; and the call edges in their order. What no record has set is as in the empty plan.
// kept: anybody may hand in any numbers, so levels of unlisted nodes, pairs behind the count and a count past the array are values too, and an Option for a node or
// a slice for the pairs would leave them out. The arrays are fixed, since nothing here is on a heap.
#[derive(Clone, Copy, PartialEq, Eq)]
pub struct Plan {
    pub threads: [u8; Site::COUNT],
    pub places: [u8; Node::COUNT],
    pub levels: [u8; Node::COUNT],
    pub pairs: [Edge; Node::EDGES],
    pub edges: usize,
}

impl Plan {
    pub const NOWHERE: u8 = 255;
    // The bytes of the longest file: 3 for each site and edge, 4 for each node, and the end record.
    pub const FILE: usize = 3 * Site::COUNT + 4 * Node::COUNT + 3 * Node::EDGES + 1;
}

// A record of a plan file; the end record is one of its kinds.
#[derive(Clone, Copy)]
pub enum PlanRecord {
    Site(Site, u8),
    Node(Node, Site, Level),
    Edge(Node, Node),
    End,
}

// Why a plan is refused: the numbers 1 to 9 of document 01.
#[derive(Clone, Copy, PartialEq, Eq)]
pub enum PlanRefusal {
    InputEnds,
    UnknownKind,
    NotRising,
    OutOfRange,
    NotListed,
    LevelTooHigh,
    Loop,
    SelfDependence,
    TooManyEdges,
}

impl From<PlanRefusal> for u8 {
    ghost from_gives = { λ why number. number ≡ refusal_number why };

    fn from(why: PlanRefusal) -> u8 {
        match why {
            PlanRefusal::InputEnds => 1,
            PlanRefusal::UnknownKind => 2,
            PlanRefusal::NotRising => 3,
            PlanRefusal::OutOfRange => 4,
            PlanRefusal::NotListed => 5,
            PlanRefusal::LevelTooHigh => 6,
            PlanRefusal::Loop => 7,
            PlanRefusal::SelfDependence => 8,
            PlanRefusal::TooManyEdges => 9,
        }
    }
}

// A refusal of a plan's bytes, and its offset.
#[derive(Clone, Copy, PartialEq, Eq)]
pub struct ReadFault {
    pub why: PlanRefusal,
    pub offset: usize,
}

// What reading a plan answers: the bytes used, or the fault. A refused reading hands back the empty plan.
#[derive(Clone, Copy)]
pub struct PlanRead {
    pub answer: Result<usize, ReadFault>,
    pub plan: Plan,
}

// Why a net, a command or a question is refused: the numbers 18 to 34 of document 01 and its requests.
#[derive(Clone, Copy, PartialEq, Eq)]
pub enum Refusal {
    BrokenPlan,
    BrokenNet,
    NoTicket,
    TicketOpen,
    NoSuchNode,
    ParentNotOpen,
    ParentWaits,
    NoSuchEdge,
    TooManyOpen,
    NotOpen,
    StillWaits,
    ChildOpen,
    NoSuchRoom,
    NotWaiting,
}

impl From<Refusal> for u8 {
    ghost from_gives = { λ why number. number ≡ refusal_told why };

    fn from(why: Refusal) -> u8 {
        match why {
            Refusal::BrokenPlan => 18,
            Refusal::BrokenNet => 19,
            Refusal::NoTicket => 20,
            Refusal::TicketOpen => 21,
            Refusal::NoSuchNode => 22,
            Refusal::ParentNotOpen => 23,
            Refusal::ParentWaits => 24,
            Refusal::NoSuchEdge => 25,
            Refusal::TooManyOpen => 26,
            Refusal::NotOpen => 27,
            Refusal::StillWaits => 28,
            Refusal::ChildOpen => 29,
            Refusal::NoSuchRoom => 30,
            Refusal::NotWaiting => 34,
        }
    }
}
