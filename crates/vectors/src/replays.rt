// Replays the records of a file, one after another.
use crate::records::{BadRecord, Head, RECORDS_END, open_records, read_head};
use crate::tally::Tally;
use std::io::{self, Read};

// What carries out the cases of records and counts them, and keeps what the next cases go by.
pub trait Replay {
    fn replay<R: Read>(
        &mut self,
        source: &mut R,
        head: Head,
        tally: &mut Tally,
    ) -> Result<(), BadRecord>;
}

// Replays one more record: alone where it is a case that is wrong on purpose.
fn replay_one<R: Read, P: Replay>(
    source: &mut R,
    by: &mut P,
    head: Head,
    tally: &mut Tally,
) -> Result<(), BadRecord> {
    if !head.wrong || !head.kind.is_case() {
        return by.replay(source, head, tally);
    }
    let mut alone = Tally::new();
    by.replay(source, head, &mut alone)?;
    tally.count_wrong(&alone);
    Ok(())
}

// Replays a file's records up to its end or a bad one.
fn replay_all<R: Read, P: Replay>(
    source: &mut R,
    by: &mut P,
    tally: &mut Tally,
) -> Result<(), BadRecord> {
    for _ in 0..RECORDS_END {
        let Some(head) = read_head(source)? else {
            return Ok(());
        };
        replay_one(source, by, head, tally)?;
    }
    Err(BadRecord)
}

// Replays the file of a path and prints its tally under a name, with a line for each number listed, or says why there is none.
pub fn replay_path<P: Replay>(
    rt: &HostRuntime,
    path: &str,
    by: &mut P,
    name: &str,
    numbers: &[u16],
) -> io::Result<()> {
    let Some(mut source) = open_records(rt, path)? else {
        return Ok(());
    };
    let mut tally = Tally::new();
    if replay_all(&mut source, by, &mut tally).is_err() {
        println!(rt; "bad record")?;
    }
    tally.print(rt, name, numbers)
}
