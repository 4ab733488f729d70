// The ten EGP messages: what each kind carries, and which types, codes, statuses and lengths it has.
#![tactic(auto)]

ghost use Rattle.std.specs.Prelude.{◌≡◌};
ghost use Rattle.message.specs.Kinds.{type_of, code_of, kind_at, plain_status, refusal_status, marked_status, status_allowed, length_allowed, kind_of, sequence_of, status_of};

// The kinds, in the order of 01's table.
#[derive(Clone, Copy, Debug, PartialEq, Eq)]
pub enum Kind {
    Request,
    Confirm,
    Refuse,
    Cease,
    CeaseAck,
    Hello,
    IHeardYou,
    Poll,
    Update,
    Error,
}

// A message once read. An Update's rows stand outside; the twelve octets that an Error carries are three words.
#[derive(Clone, Copy, Debug, PartialEq, Eq)]
pub enum Message {
    Request {
        asn: u16,
        sequence: u16,
        status: u8,
        hello: u16,
        poll: u16,
    },
    Confirm {
        asn: u16,
        sequence: u16,
        status: u8,
        hello: u16,
        poll: u16,
    },
    Refuse {
        asn: u16,
        sequence: u16,
        status: u8,
    },
    Cease {
        asn: u16,
        sequence: u16,
        status: u8,
    },
    CeaseAck {
        asn: u16,
        sequence: u16,
        status: u8,
    },
    Hello {
        asn: u16,
        sequence: u16,
        status: u8,
    },
    IHeardYou {
        asn: u16,
        sequence: u16,
        status: u8,
    },
    Poll {
        asn: u16,
        sequence: u16,
        status: u8,
        net: u32,
    },
    Update {
        asn: u16,
        sequence: u16,
        status: u8,
        net: u32,
    },
    Error {
        asn: u16,
        sequence: u16,
        status: u8,
        reason: u16,
        first: u32,
        second: u32,
        third: u32,
    },
}

impl Kind {
    // The kind that a type and a code name, if they name one.
    #[tactic(auto, unfolding(crate::specs::Kinds::kind_at))]
    pub fn named(number: u8, code: u8) -> Option<Kind>
        ensures { result ≡ kind_at number code }
    {
        match (number, code) {
            (3, 0) => Some(Kind::Request),
            (3, 1) => Some(Kind::Confirm),
            (3, 2) => Some(Kind::Refuse),
            (3, 3) => Some(Kind::Cease),
            (3, 4) => Some(Kind::CeaseAck),
            (5, 0) => Some(Kind::Hello),
            (5, 1) => Some(Kind::IHeardYou),
            (2, 0) => Some(Kind::Poll),
            (1, 0) => Some(Kind::Update),
            (8, 0) => Some(Kind::Error),
            _ => None,
        }
    }

    pub fn type_number(self) -> u8
        ensures { result ≡ type_of self }
    {
        match self {
            Kind::Request | Kind::Confirm | Kind::Refuse | Kind::Cease | Kind::CeaseAck => 3,
            Kind::Hello | Kind::IHeardYou => 5,
            Kind::Poll => 2,
            Kind::Update => 1,
            Kind::Error => 8,
        }
    }

    pub fn code(self) -> u8
        ensures { result ≡ code_of self }
    {
        match self {
            Kind::Request | Kind::Hello | Kind::Poll | Kind::Update | Kind::Error => 0,
            Kind::Confirm | Kind::IHeardYou => 1,
            Kind::Refuse => 2,
            Kind::Cease => 3,
            Kind::CeaseAck => 4,
        }
    }

    // Whether a message of this kind may have this status.
    #[tactic(auto, unfolding(crate::specs::Kinds::plain_status, crate::specs::Kinds::refusal_status, crate::specs::Kinds::marked_status))]
    pub fn allows_status(self, status: u8) -> bool
        ensures { result ≡ status_allowed self status }
    {
        match self {
            Kind::Refuse | Kind::Cease | Kind::CeaseAck => matches!(status, 0 | 3..=7),
            Kind::Update | Kind::Error => matches!(status, 0..=2 | 128..=130),
            _ => status <= 2,
        }
    }

    // Whether a message of this kind may have this many octets.
    pub fn allows_length(self, length: usize) -> bool
        ensures { result ≡ length_allowed self length }
    {
        match self {
            Kind::Request | Kind::Confirm => length == 14,
            Kind::Poll => length == 16,
            Kind::Update => 16 <= length,
            Kind::Error => length == 24,
            _ => length == 10,
        }
    }
}

impl Message {
    pub fn kind(self) -> Kind
        ensures { result ≡ kind_of self }
    {
        match self {
            Message::Request { .. } => Kind::Request,
            Message::Confirm { .. } => Kind::Confirm,
            Message::Refuse { .. } => Kind::Refuse,
            Message::Cease { .. } => Kind::Cease,
            Message::CeaseAck { .. } => Kind::CeaseAck,
            Message::Hello { .. } => Kind::Hello,
            Message::IHeardYou { .. } => Kind::IHeardYou,
            Message::Poll { .. } => Kind::Poll,
            Message::Update { .. } => Kind::Update,
            Message::Error { .. } => Kind::Error,
        }
    }

    pub fn sequence(self) -> u16
        ensures { result ≡ sequence_of self }
    {
        match self {
            Message::Request { sequence, .. }
            | Message::Confirm { sequence, .. }
            | Message::Refuse { sequence, .. }
            | Message::Cease { sequence, .. }
            | Message::CeaseAck { sequence, .. }
            | Message::Hello { sequence, .. }
            | Message::IHeardYou { sequence, .. }
            | Message::Poll { sequence, .. }
            | Message::Update { sequence, .. }
            | Message::Error { sequence, .. } => sequence,
        }
    }

    pub fn status(self) -> u8
        ensures { result ≡ status_of self }
    {
        match self {
            Message::Request { status, .. }
            | Message::Confirm { status, .. }
            | Message::Refuse { status, .. }
            | Message::Cease { status, .. }
            | Message::CeaseAck { status, .. }
            | Message::Hello { status, .. }
            | Message::IHeardYou { status, .. }
            | Message::Poll { status, .. }
            | Message::Update { status, .. }
            | Message::Error { status, .. } => status,
        }
    }
}
