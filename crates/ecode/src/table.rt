// Tables of fixed length.
ghost use Rattle.std.specs.Prelude.{◌≡◌, ◌-◌, ◌≤◌, ◌++◌, length, replicate};

// The items, and then the same filler up to the table's length.
pub fn padded<T: Copy, const N: usize>(items: &[T], filler: T) -> [T; N]
    requires { length items.now ≤ N }
    ensures { result ≡ items.now ++ replicate (N - length items.now) filler }
{
    let mut table = [filler; N];
    table[..items.len()].copy_from_slice(items);
    table
}
