// What is so of every lent slice of 32-bit words.
ghost use Rattle.words.specs.Word.{IsWord};
ghost use Rattle.order.specs.Lists.{All};

// Each word fits 32 bits. The check learns that of a signed word where it is read, and a caller of all of them here; nothing is done with them, so that an
// optimiser drops the loop.
pub fn are_words(words: &[i32])
    ensures { All IsWord words.now }
{
    for word in words {
        let _fits = *word;
    }
}
