// The line of a recorded sheet.
ghost use Rattle.std.specs.Prelude.{◌≤◌, length};
ghost use Rattle.text_lines.specs.Text.{ShowsText};
ghost use Rattle.check_replay.specs.Line.{replay_line};

use crate::calls::replay;
use export_numbers::put_answer;
use text_lines::Page;

// The whole line, at the front of out: the numbers of the first answer, and the checksum over all calls. Its length is answered, and not the line: no
// contract can say what stays behind a slice that is handed back.
pub fn put_line(head: &[u8; 88], sheet: &[u8], out: &mut [u8]) -> usize
    requires { 289 ≤ length out.old }
    ensures { ShowsText (replay_line head.now sheet.now) out.old result out.new }
{
    let called = replay(head, sheet);
    let mut numbers = [0u64; 12];
    put_answer(called.answer, &mut numbers);
    let mut page = Page::new(out);
    page.put_numbered(b"answer", &numbers);
    page.put_numbered_line(b" checksum", &[u64::from(called.checksum)]);
    page.finished()
}
