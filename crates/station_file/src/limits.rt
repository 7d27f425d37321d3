// What a form's file may hold.
ghost use Rattle.std.specs.Prelude.{◌≡◌};
ghost use Rattle.station_file.specs.Station.{rom_count, sheet_count};

// The most input records of a file.
pub(crate) const MOST_INPUTS: usize = 4095;

pub(crate) fn rom_count(count: usize) -> bool
    ensures { result ≡ rom_count count }
{
    matches!(count, 1..=1024)
}

pub(crate) fn sheet_count(words: usize, count: usize) -> bool
    ensures { result ≡ sheet_count words count }
{
    count == 0 || count == words
}
