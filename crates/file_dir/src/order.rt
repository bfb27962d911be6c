// The files in the order of their names, byte by byte. A place is found by halves.
ghost use Rattle.std.specs.Prelude.{◌≡◌, ◌<◌, ◌≤◌, false, true, IfSome, IsSome, length};
ghost use Rattle.std.specs.List.Sorted.{IsPartitionPoint};
ghost use Rattle.std.specs.FinMap as map;
ghost use Rattle.file_dir.specs.Order.{IsBehind, IsOrder, file_at, precedes};

use machine_names::{FileName, FileNo, MOST_FILES};
use number_map::NumberMap;

/// The full name of each file, by number.
pub(crate) type Names = NumberMap<FileName, MOST_FILES>;

// Whether the name of a file comes before a text.
fn precedes(names: &Names, f: FileNo, text: &[u8]) -> bool
    ensures { result ≡ precedes names.now text.now f }
{
    match names.get(f.0 as usize) {
        Some(name) => name.as_slice().cmp(&text).is_lt(),
        None => false,
    }
}

/// How many files have a name that comes before a text.
pub(crate) fn count_before(order: &[FileNo], names: &Names, text: &[u8]) -> usize
    requires { IsOrder names.now order.now }
    ensures place { IsPartitionPoint (λ f. precedes names.now text.now f ≡ true)
        (λ f. precedes names.now text.now f ≡ false) order.now result }
    ensures within { result ≤ length order.now }
{
    order.partition_point(|f| precedes(names, *f, text))
}

/// The place of a file, which is there.
pub(crate) fn place_of(order: &[FileNo], names: &Names, f: FileNo) -> usize
    requires order { IsOrder names.now order.now }
    requires there { IsSome (map.get names.now f.0) }
    ensures within { result < length order.now }
    ensures place { file_at order.now result ≡ f.0 }
{
    let name = names.get(f.0 as usize).unwrap();
    count_before(order, names, name.as_slice())
}

/// The first place behind that of a file, which is there; the first of all where none is given.
pub(crate) fn place_behind(order: &[FileNo], names: &Names, after: Option<FileNo>) -> usize
    requires order { IsOrder names.now order.now }
    requires there { IfSome after (λ f. IsSome (map.get names.now f.0)) }
    ensures { IsBehind order.now after result }
{
    match after {
        Some(f) => place_of(order, names, f) + 1,
        None => 0,
    }
}
