// The list of the instruction set (18.3), row by row: the one table for both ways.
ghost use Rattle.std.specs.Prelude.{◌≡◌, map};
ghost use Rattle.listing.specs.Table.{fields, fields_in, listing};
ghost use Rattle.listing.specs.Patterns.{pattern_of, placed_by, join_of, fields_of};

// Where the operands of a row stand in its words; the other bits are the row's own.
#[derive(Clone, Copy)]
pub enum Format {
    // no operand
    Plain,
    // r last, and m before it
    Rm,
    // m, and n4, n or r last
    Mn,
    // r, s or h last
    Nibble,
    // rf or p: three bits as the row, four last
    Split,
    // addr, eleven bits
    Target,
}

// The operands of a word, those that its format lacks 0.
#[derive(Clone, Copy, Debug, PartialEq, Eq)]
pub struct Fields {
    pub first: u8,
    pub second: u8,
    pub addr: u16,
}

fn operands(first: u8, second: u8, addr: u16) -> Fields
    ensures { result ≡ fields first second addr }
{
    Fields {
        first,
        second,
        addr,
    }
}

impl Format {
    // What stands in the fields of a word.
    fn fields_in(self, word: u16) -> Fields
        ensures { result ≡ fields_in self word }
    {
        let m = (word / 16 % 128) as u8;
        let x = (word % 16) as u8;
        match self {
            Format::Plain => operands(0, 0, 0),
            Format::Rm => operands(x, m, 0),
            Format::Mn => operands(m, x, 0),
            Format::Nibble => operands(x, 0, 0),
            Format::Split => operands((word / 256 % 8 * 16 + word % 16) as u8, 0, 0),
            Format::Target => operands(0, 0, word % 2048),
        }
    }

    // The operands' part of a word.
    fn placed(self, operands: Fields) -> u16
        ensures { result ≡ placed_by self operands }
    {
        let first = u16::from(operands.first);
        let second = u16::from(operands.second);
        match self {
            Format::Plain => 0,
            Format::Rm => second * 16 + first,
            Format::Mn => first * 16 + second,
            Format::Nibble => first,
            Format::Split => first / 16 * 256 + first % 16,
            Format::Target => operands.addr,
        }
    }
}

// The machine code of a row, its operands 0, and the format.
#[derive(Clone, Copy)]
pub struct Pattern(u16, Format);

impl Pattern {
    pub(crate) fn fields_in(self, word: u16) -> Fields
        ensures { result ≡ fields_of self word }
    {
        self.1.fields_in(word)
    }

    // The word of a row with its operands, cut to 16 bits: operands that are too large for their fields do not come back from it.
    pub(crate) fn join(self, operands: Fields) -> u16
        ensures { result ≡ join_of self operands }
    {
        self.0.wrapping_add(self.1.placed(operands))
    }
}

const LISTING: [Pattern; 47] = [
    // Add
    Pattern(0b00000_000_0000_0000, Format::Rm), // ADD r, m
    Pattern(0b10000_000_0000_0000, Format::Mn), // ADD m, #n4
    Pattern(0b00010_000_0000_0000, Format::Rm), // ADDC r, m
    Pattern(0b10010_000_0000_0000, Format::Mn), // ADDC m, #n4
    Pattern(0b00111_000_1001_0000, Format::Plain), // INC AR
    Pattern(0b00111_000_1000_0000, Format::Plain), // INC IX
    // Subtract
    Pattern(0b00001_000_0000_0000, Format::Rm), // SUB r, m
    Pattern(0b10001_000_0000_0000, Format::Mn), // SUB m, #n4
    Pattern(0b00011_000_0000_0000, Format::Rm), // SUBC r, m
    Pattern(0b10011_000_0000_0000, Format::Mn), // SUBC m, #n4
    // Logical operation
    Pattern(0b00110_000_0000_0000, Format::Rm), // OR r, m
    Pattern(0b10110_000_0000_0000, Format::Mn), // OR m, #n4
    Pattern(0b00100_000_0000_0000, Format::Rm), // AND r, m
    Pattern(0b10100_000_0000_0000, Format::Mn), // AND m, #n4
    Pattern(0b00101_000_0000_0000, Format::Rm), // XOR r, m
    Pattern(0b10101_000_0000_0000, Format::Mn), // XOR m, #n4
    // Test
    Pattern(0b11110_000_0000_0000, Format::Mn), // SKT m, #n
    Pattern(0b11111_000_0000_0000, Format::Mn), // SKF m, #n
    // Compare
    Pattern(0b01001_000_0000_0000, Format::Mn), // SKE m, #n4
    Pattern(0b01011_000_0000_0000, Format::Mn), // SKNE m, #n4
    Pattern(0b11001_000_0000_0000, Format::Mn), // SKGE m, #n4
    Pattern(0b11011_000_0000_0000, Format::Mn), // SKLT m, #n4
    // Rotate
    Pattern(0b00111_000_0111_0000, Format::Nibble), // RORC r
    // Transfer
    Pattern(0b01000_000_0000_0000, Format::Rm), // LD r, m
    Pattern(0b11000_000_0000_0000, Format::Mn), // ST m, r
    Pattern(0b01010_000_0000_0000, Format::Rm), // MOV @r, m
    Pattern(0b11010_000_0000_0000, Format::Mn), // MOV m, @r
    Pattern(0b11101_000_0000_0000, Format::Mn), // MOV m, #n4
    Pattern(0b00111_000_0001_0000, Format::Plain), // MOVT DBF, @AR
    Pattern(0b00111_000_1101_0000, Format::Plain), // PUSH AR
    Pattern(0b00111_000_1100_0000, Format::Plain), // POP AR
    Pattern(0b00111_000_0011_0000, Format::Split), // PEEK WR, rf
    Pattern(0b00111_000_0010_0000, Format::Split), // POKE rf, WR
    Pattern(0b00111_000_1011_0000, Format::Split), // GET DBF, p
    Pattern(0b00111_000_1010_0000, Format::Split), // PUT p, DBF
    // Branch
    Pattern(0b01100_000_0000_0000, Format::Target), // BR addr
    Pattern(0b00111_000_0100_0000, Format::Plain), // BR @AR
    // Subroutine
    Pattern(0b11100_000_0000_0000, Format::Target), // CALL addr
    Pattern(0b00111_000_0101_0000, Format::Plain), // CALL @AR
    Pattern(0b00111_000_1110_0000, Format::Plain), // RET
    Pattern(0b00111_001_1110_0000, Format::Plain), // RETSK
    Pattern(0b00111_100_1110_0000, Format::Plain), // RETI
    // Interrupt
    Pattern(0b00111_000_1111_0000, Format::Plain), // EI
    Pattern(0b00111_001_1111_0000, Format::Plain), // DI
    // Others
    Pattern(0b00111_010_1111_0000, Format::Nibble), // STOP s
    Pattern(0b00111_011_1111_0000, Format::Nibble), // HALT h
    Pattern(0b00111_100_1111_0000, Format::Plain), // NOP
];

// The list as a value: a constant array of structs is built where it is named, so name it once and not for each row.
#[tactic(auto, unfolding(crate::specs::Table::listing, isa::specs::Encode::word_of))]
pub(crate) fn patterns() -> [Pattern; 47]
    ensures { result ≡ map pattern_of listing }
{
    LISTING
}
