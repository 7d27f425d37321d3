// A place of the stack read and closed. The record has five; past these there is nothing to read, and a write changes nothing.
ghost use Rattle.std.specs.Prelude.{◌≡◌, slice_index, slice_set};

// The address on a place.
pub(crate) fn address_on(stack: &[u16; 5], place: u8) -> u16
    ensures { result ≡ slice_index stack.now place }
{
    stack.get(place as usize).copied().unwrap_or(0)
}

// The place 0 again. `get_mut` says nothing of the places that it does not lend.
pub(crate) fn clear(stack: &mut [u16; 5], place: u8)
    ensures { stack.new ≡ slice_set stack.old place 0 }
{
    let place = place as usize;
    if place < stack.len() {
        stack[place] = 0;
    }
}
