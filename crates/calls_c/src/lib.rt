// The calls for C, exported: each is that of `calls`, with its clauses. What C links is the archive of this crate.
#![tactic(auto)]

ghost use Rattle.std.specs.Prelude.{[]};
ghost use Rattle.meaning.specs.Reply as reply;
ghost use Rattle.calls.specs.Plain.{Copies, Gives, Check, Fit, Run, Apply};

use calls::Reply;

#[unsafe(no_mangle)]
pub extern "C" fn chukelowa_read(bundle: &[u8], tables: &mut [u8]) -> Reply
    ensures { Copies (reply.read bundle.now tables.old) result tables.new }
{
    calls::chukelowa_read(bundle, tables)
}

#[unsafe(no_mangle)]
pub extern "C" fn chukelowa_write(tables: &[u8], blocks: &mut [u8]) -> Reply
    ensures { Copies (reply.write tables.now blocks.old) result blocks.new }
{
    calls::chukelowa_write(tables, blocks)
}

#[unsafe(no_mangle)]
pub extern "C" fn chukelowa_check(bundle: &[u8], work: &mut [u8]) -> Reply
    ensures { Gives (Check bundle.now work.old) result [] work.new }
{
    calls::chukelowa_check(bundle, work)
}

#[unsafe(no_mangle)]
pub extern "C" fn chukelowa_fit(bundle: &[u8], told: usize) -> Reply
    ensures { Gives (Fit bundle.now told) result [] [] }
{
    calls::chukelowa_fit(bundle, told)
}

#[unsafe(no_mangle)]
pub extern "C" fn chukelowa_run(bundle: &[u8], work: &mut [u8], res: &mut [u8]) -> Reply
    ensures { Gives (Run bundle.now work.old res.old) result res.new work.new }
{
    calls::chukelowa_run(bundle, work, res)
}

#[unsafe(no_mangle)]
pub extern "C" fn chukelowa_apply(bundle: &[u8], work: &mut [u8], res: &mut [u8]) -> Reply
    ensures { Gives (Apply bundle.now work.old res.old) result res.new work.new }
{
    calls::chukelowa_apply(bundle, work, res)
}
