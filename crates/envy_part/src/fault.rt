/// Why no board was made over a part.
#[derive(Clone, Copy, Debug, PartialEq, Eq)]
pub enum PartFault {
    /// The part has another number of rows than the shape.
    FlashSize,
    /// The SRAM has another number of words than the shape asks for.
    SramSize,
    /// No memory was left for the counts of erases, a word for each segment.
    NoMemory,
}
