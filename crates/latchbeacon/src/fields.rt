// The exported calls on the fields of a word. Calls that are alike stay apart: C has a name for each.
ghost use Rattle.std.specs.Prelude.{◌≡◌};
ghost use Rattle.ump.specs.Word.{bit_field, crumb_field, nibble_field, septet_field, octet_field, word_field, get_field, set_field};
ghost use Rattle.bit_ops.specs.Meaning.{bit_number};
ghost use Rattle.answers.specs.Answers.{number_answer};

use answers::NumberAnswer;

// Reads a bit, by its index, 0 for the most significant; Field.
#[unsafe(no_mangle)]
pub extern "C" fn latchbeacon_bit(word: u32, index: usize) -> NumberAnswer
    ensures { result ≡ number_answer (get_field bit_field word index) }
{
    answers::answer(bit_ops::bit(word, index))
}

// The word with a bit, set; Field.
#[unsafe(no_mangle)]
pub extern "C" fn latchbeacon_set_bit(word: u32, index: usize, value: bool) -> NumberAnswer
    ensures { result ≡ number_answer (set_field bit_field word index (bit_number value)) }
{
    answers::answer(bit_ops::set_bit(word, index, value))
}

// Reads a crumb, of two bits, by its index, 0 for the most significant; Field.
#[unsafe(no_mangle)]
pub extern "C" fn latchbeacon_crumb(word: u32, index: usize) -> NumberAnswer
    ensures { result ≡ number_answer (get_field crumb_field word index) }
{
    answers::answer(bit_ops::crumb(word, index))
}

// The word with a crumb, of two bits, set; Field.
#[unsafe(no_mangle)]
pub extern "C" fn latchbeacon_set_crumb(word: u32, index: usize, value: u8) -> NumberAnswer
    ensures { result ≡ number_answer (set_field crumb_field word index value) }
{
    answers::answer(bit_ops::set_crumb(word, index, value))
}

// Reads a nibble, of four bits, by its index, 0 for the most significant; Field.
#[unsafe(no_mangle)]
pub extern "C" fn latchbeacon_nibble(word: u32, index: usize) -> NumberAnswer
    ensures { result ≡ number_answer (get_field nibble_field word index) }
{
    answers::answer(bit_ops::nibble(word, index))
}

// The word with a nibble, of four bits, set; Field.
#[unsafe(no_mangle)]
pub extern "C" fn latchbeacon_set_nibble(word: u32, index: usize, value: u8) -> NumberAnswer
    ensures { result ≡ number_answer (set_field nibble_field word index value) }
{
    answers::answer(bit_ops::set_nibble(word, index, value))
}

// Reads a septet, the low seven bits of an octet, by its index, 0 for the most significant; Field.
#[unsafe(no_mangle)]
pub extern "C" fn latchbeacon_septet(word: u32, index: usize) -> NumberAnswer
    ensures { result ≡ number_answer (get_field septet_field word index) }
{
    answers::answer(bit_ops::septet(word, index))
}

// The word with a septet, the low seven bits of an octet, set; Field. Its octet's top bit is kept.
#[unsafe(no_mangle)]
pub extern "C" fn latchbeacon_set_septet(word: u32, index: usize, value: u8) -> NumberAnswer
    ensures { result ≡ number_answer (set_field septet_field word index value) }
{
    answers::answer(bit_ops::set_septet(word, index, value))
}

// Reads an octet, by its index, 0 for the most significant; Field.
#[unsafe(no_mangle)]
pub extern "C" fn latchbeacon_octet(word: u32, index: usize) -> NumberAnswer
    ensures { result ≡ number_answer (get_field octet_field word index) }
{
    answers::answer(bit_ops::octet(word, index))
}

// The word with an octet, set; Field.
#[unsafe(no_mangle)]
pub extern "C" fn latchbeacon_set_octet(word: u32, index: usize, value: u8) -> NumberAnswer
    ensures { result ≡ number_answer (set_field octet_field word index value) }
{
    answers::answer(bit_ops::set_octet(word, index, value))
}

// Reads a word of 16 bits, by its index, 0 for the most significant; Field.
#[unsafe(no_mangle)]
pub extern "C" fn latchbeacon_word(word: u32, index: usize) -> NumberAnswer
    ensures { result ≡ number_answer (get_field word_field word index) }
{
    answers::answer(bit_ops::word(word, index))
}

// The word with a word of 16 bits, set; Field.
#[unsafe(no_mangle)]
pub extern "C" fn latchbeacon_set_word(word: u32, index: usize, value: u16) -> NumberAnswer
    ensures { result ≡ number_answer (set_field word_field word index value) }
{
    answers::answer(bit_ops::set_word(word, index, value))
}
