// A kind of message.
ghost use Rattle.std.specs.Prelude.{List, ℕ};
ghost use Rattle.packets.specs.Answers.{Answer};
ghost use Rattle.messages.specs.Told.{tells};

use packets::PacketFault;

pub trait Message {
    // What a message of this kind tells.
    type Record;

    // what its bytes come to
    ghost meaning: { List ℕ → Answer Self.Record };

    // Fills a record that is lent; where the message is refused, it stays as it was.
    fn read(message: &[u8], out: &mut Self::Record) -> Result<(), PacketFault>
        ensures told { tells (meaning message.now) out.old out.new result };
}
