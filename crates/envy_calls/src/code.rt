ghost use Rattle.std.specs.Prelude.{◌≡◌, ◌≤◌};
ghost use Rattle.envy_policy.specs.Setup.{shape_rule};
ghost use Rattle.envy_calls.specs.Codes.{answer_of_image, answer_of_rule, answer_of_setup, number_of_rule, number_of};

use envy_audit::Rule;
use envy_base::ShapeFault;
use envy_policy::SetupFault;

/// What a call answers.
#[derive(Clone, Copy, Debug, PartialEq, Eq)]
pub enum Code {
    /// It was done.
    Done,
    /// The place holds no memory.
    Empty,
    /// Power is off, or failed in the call.
    Off,
    /// The address lies past the last page.
    Range,
    /// Another transaction owns the page.
    Held,
    /// No more pages may be owned.
    Full,
    /// All 64 slots are open.
    Busy,
    /// No such slot is open.
    Closed,
    /// A flash operation failed.
    Bad,
    /// Memory ran out.
    NoMemory,
    /// The place holds a memory already.
    Open,
    /// A plan for the operation before the next one.
    Zero,
    /// Power doesn't return.
    Dead,
    /// Power is on already.
    Powered,
    /// The flash hasn't as many rows as the setup's shape.
    FlashSize,
    /// The SRAM hasn't as many words as the map of the setup's shape.
    SramSize,
    /// The counts of erases aren't as many as the segments.
    ErasesSize,
    /// No policy has this number.
    Policy,
    /// What was found isn't formatted.
    Unformatted,
    /// What was found is of the first version.
    Older,
    /// What was found has another shape.
    OtherShape,
    /// The setup breaks this rule.
    Setup(SetupFault),
    /// What was found isn't sound: this is the first point that fails.
    Broken(Rule),
    /// The caller's bytes have no room for the image.
    Small,
    /// The bytes end within the image.
    ImageShort,
    /// The bytes don't begin with the mark of an image.
    ImageMark,
    /// The image is one of another shape than the setup's.
    ImageOther,
    /// The image has a shape that breaks this rule.
    ImageShape(ShapeFault),
    /// The map has no such pair.
    Absent,
    /// The map has as many pairs as it may have.
    MapFull,
    /// A slot is open.
    SlotOpen,
    /// The memory has too few pages or shadows for a map.
    MapSetup,
    /// The words stand for no map.
    BrokenMap,
    /// A flash operation failed in a transaction of maps, which is aborted.
    BadAborted,
}

// The place of a point in the order of the audit.
fn rule_number(rule: Rule) -> u32
    ensures place { result ≡ number_of_rule rule }
    ensures last { result ≤ 12 }
{
    match rule {
        Rule::A => 0,
        Rule::B => 1,
        Rule::C => 2,
        Rule::D => 3,
        Rule::E => 4,
        Rule::F => 5,
        Rule::G => 6,
        Rule::H => 7,
        Rule::I => 8,
        Rule::J => 9,
        Rule::K => 10,
        Rule::L => 11,
        Rule::M => 12,
    }
}

// The number of the answer that a point of soundness fails. For points after the twelfth it comes after others.
fn broken_answer(place: u32) -> u32
    requires { place ≤ 12 }
    ensures { result ≡ answer_of_rule place }
{
    if place > 11 { 51 + place } else { 31 + place }
}

// The number of a rule of shapes.
fn shape_number(fault: ShapeFault) -> u32
    ensures number { result ≡ shape_rule fault }
    ensures last { result ≤ 19 }
{
    match fault {
        ShapeFault::Segments => 1,
        ShapeFault::Rows => 2,
        ShapeFault::Pages => 3,
        ShapeFault::Frames => 4,
        ShapeFault::Entries => 5,
        ShapeFault::Share => 6,
        ShapeFault::Total => 7,
        ShapeFault::Reserves => 18,
        ShapeFault::Sums => 19,
    }
}

// The number of the answer that a setup breaks a rule. For rules after 17 it comes after all others.
fn setup_answer(rule: u32) -> u32
    requires { rule ≤ 19 }
    ensures { result ≡ answer_of_setup rule }
{
    if rule > 17 { 40 + rule } else { 20 + rule }
}

// The number of the answer that the shape of an image breaks a rule.
fn image_answer(rule: u32) -> u32
    requires { rule ≤ 19 }
    ensures { result ≡ answer_of_image rule }
{
    if rule > 17 { 42 + rule } else { 46 + rule }
}

impl Code {
    /// The number that stands for the answer.
    #[inline(always)]
    pub fn number(self) -> u32
        ensures { result ≡ number_of self }
    {
        match self {
            Code::Done => 0,
            Code::Empty => 1,
            Code::Off => 2,
            Code::Range => 3,
            Code::Held => 4,
            Code::Full => 5,
            Code::Busy => 6,
            Code::Closed => 7,
            Code::Bad => 8,
            Code::NoMemory => 9,
            Code::Open => 10,
            Code::Zero => 11,
            Code::Dead => 12,
            Code::Powered => 13,
            Code::FlashSize => 14,
            Code::SramSize => 15,
            Code::ErasesSize => 16,
            Code::Policy => 17,
            Code::Unformatted => 18,
            Code::Older => 19,
            Code::OtherShape => 20,
            Code::Setup(fault) => setup_answer(fault.rule() as u32),
            Code::Broken(rule) => broken_answer(rule_number(rule)),
            Code::Small => 43,
            Code::ImageShort => 44,
            Code::ImageMark => 45,
            Code::ImageOther => 46,
            Code::ImageShape(fault) => image_answer(shape_number(fault)),
            Code::Absent => 54,
            Code::MapFull => 55,
            Code::SlotOpen => 56,
            Code::MapSetup => 57,
            Code::BrokenMap => 62,
            Code::BadAborted => 80,
        }
    }
}
