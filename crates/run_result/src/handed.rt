// The result, handed out: its rows are counted first, so Room leaves the result rows untouched.
ghost use Rattle.std.specs.Prelude.{◌≡◌};
ghost use Rattle.meaning.specs.Words.{rows_lent};
ghost use Rattle.forest_rows.specs.Rows.{Readable};
ghost use Rattle.run_result.specs.Hands.{HandsOut};

// The rows that a lent slice counts for.
pub fn rows_lent(b: &[u8]) -> usize
    ensures { result ≡ rows_lent b.now }
{
    (b.len() / 8).min(65535)
}

// The forest at row `root` of the working rows, from row 1 of the result on: how many rows it takes, none where fewer are lent.
pub fn hand_out(work: &[u8], root: usize, res: &mut [u8]) -> Option<usize>
    requires { Readable work.now root }
    ensures { HandsOut work.now root res.old res.new result }
{
    let room = rows_lent(res);
    let n = crate::count(work, root, 0, room);
    if room < n {
        return None;
    }
    crate::write(work, root, n, res);
    Some(n)
}
