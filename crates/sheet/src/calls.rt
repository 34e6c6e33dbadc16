// The table of calls. A call more is a variant of its part's calls and a row of the table here, and a
// row in specs/Calls.antt and a number in specs/Said.antt.

ghost use Rattle.std.specs.Prelude.{◌≡◌, min};
ghost use Rattle.sheet.specs.Said.{number_of_queue_call, number_of_layer_call, number_of_sync_call, number_of_delta_call, number_of_desk_call};

#[derive(Clone, Copy, Debug, PartialEq, Eq)]
pub enum QueueCall {
    Open,
    Add,
    Request,
    Confirmed,
    Discard,
    Reset,
    Delay,
    Wrong,
}

impl QueueCall {
    // The call of a number within the part. A number that is no call's is taken for the last call's.
    pub fn numbered(number: u32) -> QueueCall
        ensures { number_of_queue_call result ≡ min number 7 }
    {
        match number {
            0 => QueueCall::Open,
            1 => QueueCall::Add,
            2 => QueueCall::Request,
            3 => QueueCall::Confirmed,
            4 => QueueCall::Discard,
            5 => QueueCall::Reset,
            6 => QueueCall::Delay,
            _ => QueueCall::Wrong,
        }
    }
}

#[derive(Clone, Copy, Debug, PartialEq, Eq)]
pub enum LayerCall {
    Open,
    Local,
    Remote,
    Save,
    Load,
    Advance,
    Request,
    Confirmed,
    Confirm,
    Consistent,
    Saved,
    Latest,
    Delay,
    Reset,
    Now,
}

impl LayerCall {
    // The call of a number within the part. A number that is no call's is taken for the last call's.
    pub fn numbered(number: u32) -> LayerCall
        ensures { number_of_layer_call result ≡ min number 14 }
    {
        match number {
            0 => LayerCall::Open,
            1 => LayerCall::Local,
            2 => LayerCall::Remote,
            3 => LayerCall::Save,
            4 => LayerCall::Load,
            5 => LayerCall::Advance,
            6 => LayerCall::Request,
            7 => LayerCall::Confirmed,
            8 => LayerCall::Confirm,
            9 => LayerCall::Consistent,
            10 => LayerCall::Saved,
            11 => LayerCall::Latest,
            12 => LayerCall::Delay,
            13 => LayerCall::Reset,
            _ => LayerCall::Now,
        }
    }
}

#[derive(Clone, Copy, Debug, PartialEq, Eq)]
pub enum SyncCall {
    Open,
    Advance,
    Average,
    Averages,
    Reading,
}

impl SyncCall {
    // The call of a number within the part. A number that is no call's is taken for the last call's.
    pub fn numbered(number: u32) -> SyncCall
        ensures { number_of_sync_call result ≡ min number 4 }
    {
        match number {
            0 => SyncCall::Open,
            1 => SyncCall::Advance,
            2 => SyncCall::Average,
            3 => SyncCall::Averages,
            _ => SyncCall::Reading,
        }
    }
}

#[derive(Clone, Copy, Debug, PartialEq, Eq)]
pub enum DeltaCall {
    Pack,
    Unpack,
}

impl DeltaCall {
    // The call of a number within the part. A number that is no call's is taken for the last call's.
    pub fn numbered(number: u32) -> DeltaCall
        ensures { number_of_delta_call result ≡ min number 1 }
    {
        match number {
            0 => DeltaCall::Pack,
            _ => DeltaCall::Unpack,
        }
    }
}

#[derive(Clone, Copy, Debug, PartialEq, Eq)]
pub enum DeskCall {
    Open,
    Take,
    Settle,
    Advance,
    Show,
    Log,
    Now,
}

impl DeskCall {
    // The call of a number within the part. A number that is no call's is taken for the last call's.
    pub fn numbered(number: u32) -> DeskCall
        ensures { number_of_desk_call result ≡ min number 6 }
    {
        match number {
            0 => DeskCall::Open,
            1 => DeskCall::Take,
            2 => DeskCall::Settle,
            3 => DeskCall::Advance,
            4 => DeskCall::Show,
            5 => DeskCall::Log,
            _ => DeskCall::Now,
        }
    }
}

// A call, by its part.
#[derive(Clone, Copy, Debug, PartialEq, Eq)]
pub enum Call {
    Queue(QueueCall),
    Layer(LayerCall),
    Sync(SyncCall),
    Delta(DeltaCall),
    Desk(DeskCall),
}

// The kinds of fields.
#[derive(Clone, Copy, Debug, PartialEq, Eq)]
pub enum Kind {
    // No field stands there.
    Unused,
    // A decimal u32.
    Number,
    // A decimal i32, held as its pattern.
    Frame,
    // 1 to 8 hex digits.
    Word,
    // A decimal number of at most 4,096.
    Room,
    // How many lengths are lent: at most 512.
    Lens,
    // A length of at most 65,535.
    Len,
    // `0` or `1`.
    Flag,
    // `on`, or `gone:` and a frame.
    Status,
    // `-` for none, or two hex digits for each, held as their number.
    Bytes,
}

// What a Status field holds for a seat that is on: above every frame's pattern.
// Kept: a number, since the values of a line's fields are one list of numbers in the promise of
// `read_line` (`args_after`).
pub const ON: u64 = 4_294_967_296;

// What follows a call's name: the least and the most number of fields, and the kinds of the first
// four. Every later field is of the fourth kind.
#[derive(Clone, Copy, Debug, PartialEq, Eq)]
pub struct Row {
    pub call: Call,
    pub least: u32,
    pub most: u32,
    pub kinds: [Kind; 4],
}

// As many fields as a line can hold after a name.
pub const MANY: u32 = 2047;

// A row of the table in one line: its name, and the fields of its `Row`.
macro_rules! row {
    ($name:literal, $part:ident $call:path, $least:tt to $most:tt: $a:ident $b:ident $c:ident $d:ident) => {
        (
            $name,
            Call::$part($call),
            $least,
            $most,
            [Kind::$a, Kind::$b, Kind::$c, Kind::$d],
        )
    };
}

// Kept: a row of the table is a tuple, and `find_row` makes the `Row`: a struct that holds a text and an array of enums gets no
// proof.
pub static TABLE: [(&[u8], Call, u32, u32, [Kind; 4]); 37] = [
    row!(b"queue", Queue QueueCall::Open, 2 to 2: Number Number Unused Unused),
    row!(b"q.add", Queue QueueCall::Add, 2 to 2: Frame Word Unused Unused),
    row!(b"q.request", Queue QueueCall::Request, 1 to 1: Frame Unused Unused Unused),
    row!(b"q.confirmed", Queue QueueCall::Confirmed, 1 to 1: Frame Unused Unused Unused),
    row!(b"q.discard", Queue QueueCall::Discard, 1 to 1: Frame Unused Unused Unused),
    row!(b"q.reset", Queue QueueCall::Reset, 0 to 0: Unused Unused Unused Unused),
    row!(b"q.delay", Queue QueueCall::Delay, 1 to 1: Number Unused Unused Unused),
    row!(b"q.wrong", Queue QueueCall::Wrong, 0 to 0: Unused Unused Unused Unused),
    row!(b"layer", Layer LayerCall::Open, 2 to MANY: Number Number Number Number),
    row!(b"l.local", Layer LayerCall::Local, 3 to 3: Number Frame Word Unused),
    row!(b"l.remote", Layer LayerCall::Remote, 3 to 3: Number Frame Word Unused),
    row!(b"l.save", Layer LayerCall::Save, 3 to 3: Word Word Word Unused),
    row!(b"l.load", Layer LayerCall::Load, 1 to 1: Frame Unused Unused Unused),
    row!(b"l.advance", Layer LayerCall::Advance, 0 to 0: Unused Unused Unused Unused),
    row!(b"l.request", Layer LayerCall::Request, 0 to MANY: Status Status Status Status),
    row!(b"l.confirmed", Layer LayerCall::Confirmed, 1 to MANY: Frame Status Status Status),
    row!(b"l.confirm", Layer LayerCall::Confirm, 2 to 2: Frame Flag Unused Unused),
    row!(b"l.consistent", Layer LayerCall::Consistent, 0 to 0: Unused Unused Unused Unused),
    row!(b"l.saved", Layer LayerCall::Saved, 1 to 1: Frame Unused Unused Unused),
    row!(b"l.latest", Layer LayerCall::Latest, 2 to 2: Frame Frame Unused Unused),
    row!(b"l.delay", Layer LayerCall::Delay, 2 to 2: Number Number Unused Unused),
    row!(b"l.reset", Layer LayerCall::Reset, 0 to 0: Unused Unused Unused Unused),
    row!(b"l.now", Layer LayerCall::Now, 0 to 0: Unused Unused Unused Unused),
    row!(b"sync", Sync SyncCall::Open, 0 to 0: Unused Unused Unused Unused),
    row!(b"s.advance", Sync SyncCall::Advance, 3 to 3: Frame Frame Frame Unused),
    row!(b"s.average", Sync SyncCall::Average, 0 to 0: Unused Unused Unused Unused),
    row!(b"s.averages", Sync SyncCall::Averages, 0 to 0: Unused Unused Unused Unused),
    row!(b"s.reading", Sync SyncCall::Reading, 0 to 0: Unused Unused Unused Unused),
    row!(b"pack", Delta DeltaCall::Pack, 3 to MANY: Room Bytes Bytes Len),
    row!(b"unpack", Delta DeltaCall::Unpack, 4 to 4: Room Lens Bytes Bytes),
    row!(b"desk", Desk DeskCall::Open, 2 to MANY: Number Number Number Number),
    row!(b"take", Desk DeskCall::Take, 3 to 3: Number Frame Word Unused),
    row!(b"settle", Desk DeskCall::Settle, 0 to 0: Unused Unused Unused Unused),
    row!(b"advance", Desk DeskCall::Advance, 0 to 0: Unused Unused Unused Unused),
    row!(b"show", Desk DeskCall::Show, 1 to 1: Frame Unused Unused Unused),
    row!(b"log", Desk DeskCall::Log, 2 to 2: Frame Room Unused Unused),
    row!(b"now", Desk DeskCall::Now, 0 to 0: Unused Unused Unused Unused),
];
