// The refusals, with the paper's numbers, which may have gaps. Each has one name everywhere: in the header for C in capitals with CUTLIST_ in
// front, in Rust as here.
ghost use Rattle.std.specs.Prelude.{◌≡◌};
ghost use Rattle.network.specs.Refusals.{number_of};

#[derive(Clone, Copy, PartialEq, Eq)]
pub enum Refusal {
    // By what carried the bytes.
    Truncated = 1, // the plan stops early
    UnfitCommand = 2, // a byte that is no command fit for its place
    TrailingByte = 3, // a byte after 45

    // By the one who surveyed the hall.
    BadNodeCount = 4, // point count not 2 to 64
    TerminalOutside = 5, // server or room not below the point count
    SameTerminals = 6, // server and room the same point
    EdgeNumberTooHigh = 7, // cable number above 63
    EdgeNumberNotRising = 8, // cable number not above the one before
    EndOutside = 9, // a cable end not below the point count
    BadLength = 28, // a length that is not of the cable just before it, or of 0 metres

    // By what kept the log.
    BadEvent = 16, // an event with an unknown command, or half an event
    NoSuchEdge = 17, // an event or a works window of a cable not present

    // By the one who planned the week.
    TooManyWindows = 23, // more than 14 opening windows, or more than 16 works windows
    BadWindow = 24, // a window whose start is not below its end or whose end is above 10,080, or a piece of one

    // By the one who chose the rooms.
    BadRooms = 19, // no room, more than 8, a room twice, the server, or a point outside the plan

    // By the one who set the drill.
    TooManySteps = 25, // more than 65,535 steps

    // By the program that calls.
    RowsDiffer = 11, // cut rows and side rows differ in number
    TooManyCuts = 12, // more minimal cuts than rows lent
    AbsentEdgeNotZero = 13, // an absent cable with an end or metres not 0
    EdgeNotPresent = 14, // a given set or row holds a cable not present
    BufferTooShort = 15, // the plan needs more bytes than were lent
    TooManyEvents = 18, // more whole events than bytes lent
    WorkTooShort = 20, // a step for several rooms needs more work rows than were lent
    NotTrimmed = 26, // some point or present cable is not useful
}

impl From<Refusal> for u8 {
    ghost from_gives = { λ refusal number. number ≡ number_of refusal };

    fn from(refusal: Refusal) -> u8 {
        refusal as u8
    }
}
