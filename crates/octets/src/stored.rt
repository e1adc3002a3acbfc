// Numbers stored in two bytes, high byte first, and numbers stored in an array.
ghost use Rattle.std.specs.Prelude.{◌≡◌, set};
ghost use Rattle.std.proofs.lemmas.List.Edits.{sets};
ghost use Rattle.octets.specs.Believed.Stored.{bytes_of, number_at};

// Store a value at a place; past the end nothing is stored. With `get_mut` it is not proved what the array holds afterwards.
fn store_at<T: Copy>(array: &mut [T], at: usize, value: T)
    ensures { array.new ≡ set array.old at value }
{
    if at < array.len() {
        array[at] = value;
    }
}

// Store a byte at a place; past the end nothing is stored.
pub fn store_byte(table: &mut [u8], at: usize, b: u8)
    ensures { table.new ≡ set table.old at b }
{
    store_at(table, at, b);
}

// Store the lowest two bytes of a number from a place on; past the end nothing is stored.
pub fn store_two(table: &mut [u8], at: usize, x: usize)
    ensures { table.new ≡ sets table.old at (bytes_of 2 x) }
{
    store_byte(table, at, (x / 256 % 256) as u8);
    store_byte(table, at.saturating_add(1), (x % 256) as u8);
}

// Store a number at a place of an array; past the end nothing is stored.
pub fn store_number(array: &mut [u64], at: usize, n: u64)
    ensures { array.new ≡ set array.old at n }
{
    store_at(array, at, n);
}

// The byte at a place; past the end stands 0.
pub fn load_byte(table: &[u8], at: usize) -> u8
    ensures { result ≡ number_at 1 table.now at }
{
    table.get(at).copied().unwrap_or(0)
}

// The number in the two bytes from a place on; past the end stand zeros.
pub fn load_two(table: &[u8], at: usize) -> usize
    ensures { result ≡ number_at 2 table.now at }
{
    let high = load_byte(table, at);
    let low = load_byte(table, at.saturating_add(1));
    high as usize * 256 + low as usize
}
