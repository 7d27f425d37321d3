// Numbers of two bytes, high byte first.
ghost use Rattle.std.specs.Prelude.{◌≡◌, length};
ghost use Rattle.station_file.specs.Reading.{number};
ghost use Rattle.station_file.specs.Write.{bytes_of};
ghost use Rattle.station_file.specs.Places.{read_as};

use crate::FileRefusal;

// The number at the front of a file, and the bytes after it.
#[tactic(auto, using(crate::proofs::TwoBytes::short, crate::proofs::TwoBytes::long))]
pub(crate) fn read_number(file: &[u8]) -> Result<(u16, &[u8]), FileRefusal>
    ensures { read_as (λ n. n) result ≡ number 2 file.now }
{
    let Some((bytes, rest)) = file.split_first_chunk::<2>() else {
        return Err(FileRefusal::Early);
    };
    Ok((u16::from_be_bytes(*bytes), rest))
}

pub(crate) fn put_number(value: u16, out: &mut [u8])
    requires { length out.old ≡ 2 }
    ensures { out.new ≡ bytes_of 2 value }
{
    out.copy_from_slice(&value.to_be_bytes());
}
