// The exported calls on single packets. Those of the two message types stay apart: C has a name for each.
ghost use Rattle.std.specs.Prelude.{◌≡◌};
ghost use Rattle.ump.specs.Packet.{sysex8, sysex7};
ghost use Rattle.ump.specs.Single.{read_packet8, read_packet7, packet_byte, set_packet_group};
ghost use Rattle.answers.specs.Answers.{number_answer, done_answer, packet_answer, leaving};

use answers::{NumberAnswer, PacketAnswer};

// Reads the SysEx8 packet in the first four words; Short, Type, Status, Count.
#[unsafe(no_mangle)]
pub extern "C" fn latchbeacon_sysex8_packet(words: &[u32]) -> PacketAnswer
    ensures { result ≡ packet_answer (read_packet8 words.now) }
{
    answers::answer(packet::sysex8::read_packet(words))
}

// Payload byte `index` of the SysEx8 packet; Short, Type, Status, Count, Range.
#[unsafe(no_mangle)]
pub extern "C" fn latchbeacon_sysex8_packet_byte(words: &[u32], index: usize) -> NumberAnswer
    ensures { result ≡ number_answer (packet_byte sysex8 (read_packet8 words.now) words.now index) }
{
    answers::answer(packet::sysex8::byte(words, index))
}

// Sets the group of the SysEx8 packet; Short, Type, Status, Count, Field.
#[unsafe(no_mangle)]
pub extern "C" fn latchbeacon_sysex8_packet_set_group(words: &mut [u32], group: u8) -> NumberAnswer
    ensures { (result, words.new)
        ≡ leaving done_answer (set_packet_group (read_packet8 words.old) words.old group) }
{
    answers::answer(packet::sysex8::set_group(words, group))
}

// Reads the SysEx7 packet in the first two words; Short, Type, Count, Status.
#[unsafe(no_mangle)]
pub extern "C" fn latchbeacon_sysex7_packet(words: &[u32]) -> PacketAnswer
    ensures { result ≡ packet_answer (read_packet7 words.now) }
{
    answers::answer(packet::sysex7::read_packet(words))
}

// Payload byte `index` of the SysEx7 packet; Short, Type, Count, Status, Range.
#[unsafe(no_mangle)]
pub extern "C" fn latchbeacon_sysex7_packet_byte(words: &[u32], index: usize) -> NumberAnswer
    ensures { result ≡ number_answer (packet_byte sysex7 (read_packet7 words.now) words.now index) }
{
    answers::answer(packet::sysex7::byte(words, index))
}

// Sets the group of the SysEx7 packet; Short, Type, Count, Status, Field.
#[unsafe(no_mangle)]
pub extern "C" fn latchbeacon_sysex7_packet_set_group(words: &mut [u32], group: u8) -> NumberAnswer
    ensures { (result, words.new)
        ≡ leaving done_answer (set_packet_group (read_packet7 words.old) words.old group) }
{
    answers::answer(packet::sysex7::set_group(words, group))
}
