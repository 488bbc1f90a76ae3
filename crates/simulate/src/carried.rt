// The bytes that a line of a script carries, those of a send, of a load and of a rack.
ghost use Rattle.std.specs.Prelude.{◌≡◌, ◌≤◌, min, length, take};
ghost use Rattle.script.specs.Meaning.{byte_at_of, read};

// As many bytes as a line has digits for.
pub(crate) const MOST: usize = 2048;

// So many bytes of the hex word that starts at the place `from`, at the start of the room, or as many as it holds; how many they are.
pub(crate) fn gather(bytes: &mut [u8], text: &[u8], from: usize, count: usize) -> usize
    ensures value { result ≡ min count (length bytes.old) }
    ensures upper_bound { result ≤ length bytes.old }
    ensures bytes_after { take result bytes.new ≡ read (byte_at_of text.now from) result }
{
    let n = count.min(bytes.len());
    for i in 0..n {
        bytes[i] = script::byte_at(text, from, i);
    }
    n
}
