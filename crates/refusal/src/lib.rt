// Every refusal of the product with its number, and the fault of an input: refusal, place and layer.
#![tactic(auto)]

ghost use Rattle.std.specs.Prelude.{◌≡◌};
ghost use Rattle.refusal.specs.Numbers.{code, label};

mod printing;

// Why a call was refused. `number` gives what a refused call returns.
#[derive(Clone, Copy, Debug, PartialEq, Eq)]
pub enum Refusal {
    // the slot is above 7
    SlotRange = 1,
    // the period T lies outside 1 to 4,096
    PeriodRange = 2,
    // the relative deadline D lies outside 1 to T
    DeadlineRange = 3,
    // the service time C lies outside 1 to D
    ServiceRange = 4,
    // the window k lies outside 1 to 16
    WindowRange = 5,
    // the required number m lies outside 1 to k
    RequiredRange = 6,
    // the history has a one in bit k or above
    HistoryWidth = 7,
    // more than 65,535 units
    UnitCount = 8,
    // the file ends too soon
    FileShort = 9,
    // bit 6 or 7 of a field map stands
    FieldUnknown = 10,
    // the first record lacks the period
    PeriodMissing = 11,
    // bytes follow the last record
    BytesFollow = 12,
    // no ranking rule has this word
    WordUnknown = 13,
    // the slot is taken
    SlotTaken = 20,
    // the slot is empty
    SlotEmpty = 21,
    // the hyper-period would pass 36,864
    HyperPeriodLimit = 22,
    // the product of the counts of passing histories would pass 1,048,576
    HistoryLimit = 23,
    // the instant would pass 1,099,511,627,776
    InstantLimit = 24,
}

impl Refusal {
    // The number that a refused call returns.
    pub fn number(self) -> u8
        ensures { result ≡ code self }
    {
        self as u8
    }

    // The fault of an input that is refused so, at a place, by a layer.
    pub fn at(self, place: usize, layer: Layer) -> Fault
        ensures { result ≡ record { refusal = self; place = place; layer = layer } }
    {
        Fault {
            refusal: self,
            place,
            layer,
        }
    }
}

// Which part of the product saw a fault of its input.
#[derive(Clone, Copy, Debug, PartialEq, Eq)]
pub enum Layer {
    // the layout of the table file
    File,
    // the numbers of one stream
    Stream,
    // the table as a whole
    Table,
    // the word that names the ranking rule
    Word,
}

impl Layer {
    pub fn name(self) -> &'static str
        ensures { result.now ≡ label self }
    {
        match self {
            Layer::File => "file",
            Layer::Stream => "stream",
            Layer::Table => "table",
            Layer::Word => "word",
        }
    }
}

// The fault of an input: why it is refused, at which byte counted from the table's first, and who saw it.
#[derive(Clone, Copy, Debug, PartialEq, Eq)]
pub struct Fault {
    pub refusal: Refusal,
    pub place: usize,
    pub layer: Layer,
}
