// Bytes at the end of a list.
ghost use Rattle.std.specs.Prelude.{◌≡◌, ◌≤◌, ◌+◌, ◌++◌, length};

use fixed_vec::List;

// Puts the bytes at the end of a list that has room for them.
pub(crate) fn append(list: &mut List<u8>, bytes: &[u8])
    requires { length bytes.now ≤ list.old.spare }
    ensures items { list.new.items ≡ list.old.items ++ bytes.now }
    ensures spare { length bytes.now + list.new.spare ≡ list.old.spare }
{
    for byte in bytes {
        list.push(*byte);
    }
}
