// The four numbers that the library keeps apart: a ticket, a node number, a site number and a level. Each limit stands once, with the
// thing that it limits. A value of these types may hold any byte or word; a constructor is an aid that gives none for a number out of range.
#![tactic(auto)]

ghost use Rattle.std.specs.Prelude.{◌≡◌};
ghost use Rattle.ids.specs.Made.{told_made_site, told_made_node, told_made_level, told_made_ticket, site_made, node_made, level_made, ticket_made};

// "Sites are numbered 0 to 15".
#[derive(Clone, Copy, PartialEq, Eq, PartialOrd, Ord)]
pub struct Site(pub u8);

// "Nodes are numbered 0 to 63".
#[derive(Clone, Copy, PartialEq, Eq, PartialOrd, Ord)]
pub struct Node(pub u8);

// The paper's annotation: below the threads of its site.
#[derive(Clone, Copy, PartialEq, Eq, PartialOrd, Ord)]
pub struct Level(pub u8);

// "Tickets are 1 to 65535; 0 means no ticket".
#[derive(Clone, Copy, PartialEq, Eq, PartialOrd, Ord)]
pub struct Ticket(pub u16);

impl Site {
    // How many sites there can be.
    pub const COUNT: usize = 16;
    // The most threads of a site, and so the number of levels.
    pub const THREADS: usize = 64;

    pub fn new(number: u8) -> Option<Site>
        ensures { told_made_site result ≡ site_made number }
    {
        if number as usize >= Site::COUNT {
            return None;
        }
        Some(Site(number))
    }
}

impl Node {
    // How many nodes there can be.
    pub const COUNT: usize = 64;
    // The most call edges between them.
    pub const EDGES: usize = 256;

    pub fn new(number: u8) -> Option<Node>
        ensures { told_made_node result ≡ node_made number }
    {
        if number as usize >= Node::COUNT {
            return None;
        }
        Some(Node(number))
    }
}

impl Level {
    pub fn new(number: u8) -> Option<Level>
        ensures { told_made_level result ≡ level_made number }
    {
        if number as usize >= Site::THREADS {
            return None;
        }
        Some(Level(number))
    }
}

impl Ticket {
    // The word that means no ticket.
    pub const NONE: u16 = 0;
    // The most open calls, each under a ticket of its own.
    pub const OPEN: usize = 256;

    pub fn new(number: u16) -> Option<Ticket>
        ensures { told_made_ticket result ≡ ticket_made number }
    {
        if number == Ticket::NONE {
            return None;
        }
        Some(Ticket(number))
    }
}
