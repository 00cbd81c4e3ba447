// Words of the list, and places in it.
ghost use Rattle.std.specs.Prelude.{◌≡◌, ◌+◌, ◌<◌, ◌≤◌, length};
ghost use Rattle.trial_replay_items.specs.Words.{word_at};

// Word k of the list, and 0 past its last whole word.
pub fn word(list: &[u8], k: usize) -> u64
    ensures { result ≡ word_at list.now k }
{
    if k < list.len() / 8 {
        let at = 8 * k;
        u64::from_be_bytes([
            list[at],
            list[at + 1],
            list[at + 2],
            list[at + 3],
            list[at + 4],
            list[at + 5],
            list[at + 6],
            list[at + 7],
        ])
    } else {
        0
    }
}

// The place so many words after another; far past any list where either number is.
pub fn after(place: usize, words: usize) -> usize
    ensures { result ≤ 8589934592 }
{
    if 4294967296 < place || 4294967296 < words {
        4294967296
    } else {
        place + words
    }
}

// A length that the list gives, or the most that there is room for.
pub fn held(length: u64, room: usize) -> usize
    ensures { result ≤ room }
{
    room.min(length as usize)
}
