// The exported calls on interleaved streams of two ports: an empty table, and a received packet.
ghost use Rattle.std.specs.Prelude.{◌≡◌};
ghost use Rattle.ports.specs.Table.{empty_table, receive};
ghost use Rattle.answers.specs.Answers.{received_answer, leaving};

use answers::ReceivedAnswer;

// Makes the table one with no stream open.
#[unsafe(no_mangle)]
pub extern "C" fn latchbeacon_ports_clear(table: &mut [u32; 32])
    ensures { table.new ≡ empty_table }
{
    ports::clear(table)
}

// Receives a packet at port 0 or 1: it is kept in its stream, or its stream is dropped, or a message is handed out to the output; Long, the
// packet reader's, Port, Closed, Share, Full, Room, and all that is lent stays as it was.
#[unsafe(no_mangle)]
pub extern "C" fn latchbeacon_ports_receive(
    table: &mut [u32; 32],
    words: &mut [u32],
    port: u8,
    packet: &[u32],
    output: &mut [u32],
) -> ReceivedAnswer
    ensures { (result, (table.new, words.new, output.new))
        ≡ leaving received_answer (receive table.old words.old port packet.now output.old) }
{
    answers::answer(ports::receive(table, words, port, packet, output))
}
