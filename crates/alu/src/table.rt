// Decimal results as the maker prints them: source 001, table 5-2, row by row. A row is CY and the four bits of the result; beside it
// stands what is printed: the sum or the difference, then CY and the result.
ghost use Rattle.std.specs.Prelude.{◌≡◌, ◌<◌, get_or};
ghost use Rattle.alu.specs.Rows.{sum_rows, difference_rows};

// "Addition in BCD": the sums 0 to 31.
const SUMS: [u8; 32] = [
    0b0_0000, // 0: 0 0000
    0b0_0001, // 1: 0 0001
    0b0_0010, // 2: 0 0010
    0b0_0011, // 3: 0 0011
    0b0_0100, // 4: 0 0100
    0b0_0101, // 5: 0 0101
    0b0_0110, // 6: 0 0110
    0b0_0111, // 7: 0 0111
    0b0_1000, // 8: 0 1000
    0b0_1001, // 9: 0 1001
    0b1_0000, // 10: 1 0000
    0b1_0001, // 11: 1 0001
    0b1_0010, // 12: 1 0010
    0b1_0011, // 13: 1 0011
    0b1_0100, // 14: 1 0100
    0b1_0101, // 15: 1 0101
    0b1_0110, // 16: 1 0110
    0b1_0111, // 17: 1 0111
    0b1_1000, // 18: 1 1000
    0b1_1001, // 19: 1 1001
    0b1_1110, // 20: 1 1110
    0b1_1111, // 21: 1 1111
    0b1_1100, // 22: 1 1100
    0b1_1101, // 23: 1 1101
    0b1_1110, // 24: 1 1110
    0b1_1111, // 25: 1 1111
    0b1_1100, // 26: 1 1100
    0b1_1101, // 27: 1 1101
    0b1_1010, // 28: 1 1010
    0b1_1011, // 29: 1 1011
    0b1_1100, // 30: 1 1100
    0b1_1101, // 31: 1 1101
];

// Two lines, here and in `difference`: the table is all that differs, so one function of both would be its index alone.
pub(crate) fn sum(row: u8) -> u8
    requires { row < 32 }
    ensures { result ≡ get_or sum_rows row 0 }
{
    SUMS[row as usize]
}

// "Subtraction in BCD": the differences 0 to 15, then -16 to -1.
const DIFFERENCES: [u8; 32] = [
    0b0_0000, // 0: 0 0000
    0b0_0001, // 1: 0 0001
    0b0_0010, // 2: 0 0010
    0b0_0011, // 3: 0 0011
    0b0_0100, // 4: 0 0100
    0b0_0101, // 5: 0 0101
    0b0_0110, // 6: 0 0110
    0b0_0111, // 7: 0 0111
    0b0_1000, // 8: 0 1000
    0b0_1001, // 9: 0 1001
    0b1_1100, // 10: 1 1100
    0b1_1101, // 11: 1 1101
    0b1_1110, // 12: 1 1110
    0b1_1111, // 13: 1 1111
    0b1_1100, // 14: 1 1100
    0b1_1101, // 15: 1 1101
    0b1_1110, // -16: 1 1110
    0b1_1111, // -15: 1 1111
    0b1_1100, // -14: 1 1100
    0b1_1101, // -13: 1 1101
    0b1_1110, // -12: 1 1110
    0b1_1111, // -11: 1 1111
    0b1_0000, // -10: 1 0000
    0b1_0001, // -9: 1 0001
    0b1_0010, // -8: 1 0010
    0b1_0011, // -7: 1 0011
    0b1_0100, // -6: 1 0100
    0b1_0101, // -5: 1 0101
    0b1_0110, // -4: 1 0110
    0b1_0111, // -3: 1 0111
    0b1_1000, // -2: 1 1000
    0b1_1001, // -1: 1 1001
];

pub(crate) fn difference(row: u8) -> u8
    requires { row < 32 }
    ensures { result ≡ get_or difference_rows row 0 }
{
    DIFFERENCES[row as usize]
}
