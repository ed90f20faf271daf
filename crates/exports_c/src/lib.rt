// The functions that a host in C or Rust links: each is the call of its name in exports, with the same promise.
#![tactic(auto)]

ghost use Rattle.std.specs.Prelude.{◌≡◌};
ghost use Rattle.exports.specs.Calls.{pack_call_of, unpack_call_of, shift_immediate_call_of, shift_register_call_of};
ghost use Rattle.exports.specs.Steps.{step_call_of, step_opcode_call_of, run_call_of};

#[unsafe(no_mangle)]
pub extern "C" fn tholungdek_pack(word: u32, ge: u32) -> u64
    ensures { result ≡ pack_call_of word ge }
{
    exports::tholungdek_pack(word, ge)
}

#[unsafe(no_mangle)]
pub extern "C" fn tholungdek_unpack(word: u32) -> u64
    ensures { result ≡ unpack_call_of word }
{
    exports::tholungdek_unpack(word)
}

#[unsafe(no_mangle)]
pub extern "C" fn tholungdek_shift_immediate(kind: u32, value: u32, amount: u32, carry: bool) -> u64
    ensures { result ≡ shift_immediate_call_of kind value amount carry }
{
    exports::tholungdek_shift_immediate(kind, value, amount, carry)
}

#[unsafe(no_mangle)]
pub extern "C" fn tholungdek_shift_register(kind: u32, value: u32, amount: u32, carry: bool) -> u64
    ensures { result ≡ shift_register_call_of kind value amount carry }
{
    exports::tholungdek_shift_register(kind, value, amount, carry)
}

#[unsafe(no_mangle)]
pub extern "C" fn tholungdek_step(bytes: &mut [u8], memory: &mut [u8], answer: &mut [u8]) -> u32
    ensures { (result, bytes.new, memory.new, answer.new) ≡ step_call_of bytes.old memory.old answer.old }
{
    exports::tholungdek_step(bytes, memory, answer)
}

#[unsafe(no_mangle)]
pub extern "C" fn tholungdek_step_opcode(
    bytes: &mut [u8],
    memory: &mut [u8],
    opcode: u32,
    answer: &mut [u8],
) -> u32
    ensures { (result, bytes.new, memory.new, answer.new) ≡ step_opcode_call_of bytes.old memory.old opcode answer.old }
{
    exports::tholungdek_step_opcode(bytes, memory, opcode, answer)
}

#[unsafe(no_mangle)]
pub extern "C" fn tholungdek_run(
    bytes: &mut [u8],
    memory: &mut [u8],
    budget: u32,
    answer: &mut [u8],
) -> u32
    ensures { (result, bytes.new, memory.new, answer.new) ≡ run_call_of bytes.old memory.old budget answer.old }
{
    exports::tholungdek_run(bytes, memory, budget, answer)
}
