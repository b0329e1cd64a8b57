// What a call says beside its status, as bytes.
ghost use Rattle.std.specs.Prelude.{◌≡◌, ◌≤◌, length};
ghost use Rattle.std.proofs.lemmas.List.Edits.{sets};
ghost use Rattle.card_c.specs.Entries.{reply_size, reply_page, reply_part};

use replies::{Reply, notice_no, to_no, told_no};

const REPLY: usize = 16;

// The whole of it, where there is room. That a notice is there or not is a number here, and its identifier another: C reads bytes.
fn put_whole(reply: &mut [u8], r: Reply)
    requires { reply_size ≤ length reply.old }
    ensures { reply.new ≡ sets reply.old 0 (reply_page r.dword r.len r.notice) }
{
    octets::put(reply, 0, 4, u64::from(r.dword));
    octets::put(reply, 4, 4, r.len as u64);
    octets::put(reply, 8, 2, u64::from(told_no(r.notice)));
    octets::put(reply, 10, 2, u64::from(to_no(r.notice)));
    octets::put(reply, 12, 4, u64::from(notice_no(r.notice)));
}

// As far as the region reaches.
pub(crate) fn put_reply(reply: &mut [u8], r: Reply)
    ensures { reply.new ≡ sets reply.old 0 (reply_part r.dword r.len r.notice (length reply.old)) }
{
    if REPLY <= reply.len() {
        put_whole(reply, r);
    } else {
        let mut page = [0u8; REPLY];
        put_whole(&mut page, r);
        let n = reply.len();
        octets::copy_part(&page, 0, n, reply);
    }
}
