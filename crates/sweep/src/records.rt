// The records of a stream: who is called, the horizon, the round limit, the lengths of five tables, then these tables.
use super::input::Input;
use std::io::Read;

// Who is called. `cases` has its own, which takes any other number for the reader: a crate under both for an enum of two is no plainer.
#[derive(Clone, Copy)]
pub enum Called {
    Planner,
    Reader,
}

impl TryFrom<i32> for Called {
    type Error = &'static str;

    fn try_from(kind: i32) -> Result<Called, &'static str> {
        match kind {
            1 => Ok(Called::Planner),
            2 => Ok(Called::Reader),
            _ => Err("an unknown kind of record"),
        }
    }
}

// Room for the tables of a record; their lengths are the limits.
#[derive(Drop)]
pub struct Tables {
    cages: [i32; 40],
    windows: [i32; 360],
    lags: [i32; 800],
    sets: [i32; 1200],
    list: [i32; 20000],
}

// A call of the planner or the reader.
#[derive(Drop)]
pub struct Record<'a> {
    pub called: Called,
    pub horizon: i32,
    pub limit: i32,
    pub cages: &'a [i32],
    pub windows: &'a mut [i32],
    pub lags: &'a [i32],
    pub sets: &'a [i32],
    pub list: &'a mut [i32],
}

// As much of a table as a word says, where the table has so much.
fn part<'a, const N: usize>(
    table: &'a mut [i32; N],
    word: i32,
    too_long: &'static str,
) -> Result<&'a mut [i32], &'static str> {
    let length = usize::try_from(word).unwrap_or(usize::MAX);
    table.get_mut(..length).ok_or(too_long)
}

impl Tables {
    // Each word is 0.
    pub fn blank() -> Tables {
        Tables {
            cages: [0; 40],
            windows: [0; 360],
            lags: [0; 800],
            sets: [0; 1200],
            list: [0; 20000],
        }
    }

    // The next record, if there is one more.
    pub fn next_record(
        &mut self,
        input: &mut Input<impl Read>,
    ) -> Result<Option<Record<'_>>, &'static str> {
        let kind = input.next_word()?;
        if kind == 0 {
            return Ok(None);
        }
        let called = Called::try_from(kind)?;
        let mut head = [0i32; 7];
        input.fill(&mut head)?;
        let [horizon, limit, cages, windows, lags, sets, list] = head;
        let cages = part(&mut self.cages, cages, "a cage table is too long")?;
        let windows = part(&mut self.windows, windows, "a window table is too long")?;
        let lags = part(&mut self.lags, lags, "a lag table is too long")?;
        let sets = part(&mut self.sets, sets, "a set table is too long")?;
        let list = part(&mut self.list, list, "a list is too long")?;
        input.fill(cages)?;
        input.fill(windows)?;
        input.fill(lags)?;
        input.fill(sets)?;
        input.fill(list)?;
        Ok(Some(Record {
            called,
            horizon,
            limit,
            cages,
            windows,
            lags,
            sets,
            list,
        }))
    }
}
