// Two ends in step write and read a few frames, from the Session exchange on.
use chain::numbers::Numbers;
use frame::command::Command;
use frame::outgoing::{put, with_zeros};
use frame::received::{Received, data_of};
use hexadecimal::Hex;
use length::DataLength;

const ID: u16 = 4660;

// The messages of the two ends in turn, the master's first: the kind, the connection ID and the data octets.
const MESSAGES: [(Command, u16, [u8; 4]); 5] = [
    (Command::Session, 0, [0xb2, 0xa1, 0, 0]),
    (Command::Session, 0, [0xd4, 0xc3, 0, 0]),
    (Command::Connection, ID, [0x34, 0x12, 0x55, 0]),
    (Command::Connection, ID, [0x34, 0x12, 0x55, 0]),
    (Command::ProcessData, ID, [1, 2, 3, 4]),
];

pub fn exchange_frames(rt: &HostRuntime) -> anyhow::Result<()> {
    println!(rt; "frames of 4 data octets, master and slave in turn")?;
    let mut ends = Ends {
        size: DataLength::new(4)?,
        writer: Numbers::fresh(),
        reader: Numbers::fresh(),
    };
    for (command, id, octets) in MESSAGES {
        ends.send(rt, command, id, octets)?;
        ends = ends.turned();
    }
    ends.damage(rt)
}

// Two ends in step, of which one writes and the other reads.
#[derive(Drop)]
struct Ends {
    size: DataLength,
    writer: Numbers,
    reader: Numbers,
}

impl Ends {
    // The other end writes.
    fn turned(self) -> Ends {
        Ends {
            size: self.size,
            writer: self.reader,
            reader: self.writer,
        }
    }

    // One end writes a frame, and the other reads it.
    fn send(
        &mut self,
        rt: &HostRuntime,
        command: Command,
        id: u16,
        octets: [u8; 4],
    ) -> anyhow::Result<()> {
        let written = self
            .writer
            .write(self.size, command, id, &with_zeros(&octets));
        let hex = Hex(written.octets());
        println!(rt; "  write {hex}")?;
        self.read(rt, written.octets())
    }

    // A frame whose last CRC octet was changed on the way is not taken.
    fn damage(&mut self, rt: &HostRuntime) -> anyhow::Result<()> {
        let written = self
            .writer
            .write(self.size, Command::FailSafeData, ID, &[0; 32]);
        let mut octets = [0u8; 11];
        put(written.octets(), &mut octets)?;
        octets[8] ^= 1;
        let hex = Hex(&octets);
        println!(rt; "  write {hex} with one bit changed")?;
        self.read(rt, &octets)?;
        self.read(rt, &octets[..10])
    }

    fn read(&mut self, rt: &HostRuntime, octets: &[u8]) -> anyhow::Result<()> {
        let received = Received {
            octets,
            size: self.size,
        };
        let frame = match received.frame() {
            Ok(frame) => frame,
            Err(refusal) => {
                println!(rt; "  read  refused with {}", refusal.number())?;
                return Ok(());
            }
        };
        let id = received.id();
        let data = data_of(frame.body());
        let hex = Hex(&data[..4]);
        match self.reader.take(received) {
            Some(number) => println!(rt;
                "  read  {frame}, data {hex}, connection ID {id}, taken as number {number}"
            )?,
            None => println!(rt; "  read  {frame}, data {hex}, connection ID {id}, wrong CRC")?,
        }
        Ok(())
    }
}
