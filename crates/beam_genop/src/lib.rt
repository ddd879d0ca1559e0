//! The opcodes of the profile: number, name and kinds of operands of each (genop.tab of Erlang/OTP).
#![tactic(auto)]

ghost use Rattle.std.specs.Prelude.{◌≡◌, ◌≢◌, ◌<◌, ℕ, IfSome, IfNone, find, length, get_or};
ghost use Rattle.beam_model.specs.SameText.{same_text};
ghost use Rattle.beam_model.specs.declared.opcode.Opcode.{Opcode};
ghost use Rattle.beam_model.specs.Opcodes.{number_of, kinds_of, name_of, opcode_of, opcode_named};

use beam_model::opcode::{Kind, Opcode};

/// The rows of genop.tab: the number, the opcode, its name, and the kinds of its operands in their order.
macro_rules! with_rows {
    ($then:ident) => {
        $then! {
            1 Label "label" [Number];
            2 FuncInfo "func_info" [Atom, Atom, Arity];
            3 IntCodeEnd "int_code_end" [];
            4 Call "call" [Arity, Label];
            5 CallLast "call_last" [Arity, Label, Number];
            6 CallOnly "call_only" [Arity, Label];
            7 CallExt "call_ext" [Arity, Import];
            8 CallExtLast "call_ext_last" [Arity, Import, Number];
            9 Bif0 "bif0" [Native(0), Register];
            10 Bif1 "bif1" [FailLabel, Native(1), Source, Register];
            11 Bif2 "bif2" [FailLabel, Native(2), Source, Source, Register];
            12 Allocate "allocate" [FrameSize, Number];
            13 AllocateHeap "allocate_heap" [FrameSize, Number, Number];
            16 TestHeap "test_heap" [Number, Number];
            18 Deallocate "deallocate" [Number];
            19 Return "return" [];
            20 Send "send" [];
            21 RemoveMessage "remove_message" [];
            22 Timeout "timeout" [];
            23 LoopRec "loop_rec" [Label, Register];
            24 LoopRecEnd "loop_rec_end" [Label];
            25 Wait "wait" [Label];
            26 WaitTimeout "wait_timeout" [Label, Source];
            39 IsLt "is_lt" [Label, Source, Source];
            40 IsGe "is_ge" [Label, Source, Source];
            41 IsEq "is_eq" [Label, Source, Source];
            42 IsNe "is_ne" [Label, Source, Source];
            43 IsEqExact "is_eq_exact" [Label, Source, Source];
            44 IsNeExact "is_ne_exact" [Label, Source, Source];
            45 IsInteger "is_integer" [Label, Source];
            46 IsFloat "is_float" [Label, Source];
            47 IsNumber "is_number" [Label, Source];
            48 IsAtom "is_atom" [Label, Source];
            49 IsPid "is_pid" [Label, Source];
            50 IsReference "is_reference" [Label, Source];
            51 IsPort "is_port" [Label, Source];
            52 IsNil "is_nil" [Label, Source];
            53 IsBinary "is_binary" [Label, Source];
            55 IsList "is_list" [Label, Source];
            56 IsNonemptyList "is_nonempty_list" [Label, Source];
            57 IsTuple "is_tuple" [Label, Source];
            58 TestArity "test_arity" [Label, Source, Number];
            59 SelectVal "select_val" [Source, Label, List];
            60 SelectTupleArity "select_tuple_arity" [Source, Label, List];
            61 Jump "jump" [Label];
            62 Catch "catch" [Register, Label];
            63 CatchEnd "catch_end" [Register];
            64 Move "move" [Source, Register];
            65 GetList "get_list" [Source, Register, Register];
            66 GetTupleElement "get_tuple_element" [Source, Number, Register];
            69 PutList "put_list" [Source, Source, Register];
            72 Badmatch "badmatch" [Source];
            73 IfEnd "if_end" [];
            74 CaseEnd "case_end" [Source];
            77 IsFunction "is_function" [Label, Source];
            78 CallExtOnly "call_ext_only" [Arity, Import];
            104 Try "try" [Register, Label];
            105 TryEnd "try_end" [Register];
            106 TryCase "try_case" [Register];
            107 TryCaseEnd "try_case_end" [Source];
            108 Raise "raise" [Source, Source];
            112 Apply "apply" [Arity];
            113 ApplyLast "apply_last" [Arity, Number];
            114 IsBoolean "is_boolean" [Label, Source];
            124 GcBif1 "gc_bif1" [FailLabel, Number, Native(1), Source, Register];
            125 GcBif2 "gc_bif2" [FailLabel, Number, Native(2), Source, Source, Register];
            136 Trim "trim" [Number, Number];
            153 Line "line" [Number];
            156 IsMap "is_map" [Label, Source];
            159 IsTaggedTuple "is_tagged_tuple" [Label, Source, Number, Atom];
            160 BuildStacktrace "build_stacktrace" [];
            161 RawRaise "raw_raise" [];
            162 GetHd "get_hd" [Source, Register];
            163 GetTl "get_tl" [Source, Register];
            164 PutTuple2 "put_tuple2" [Register, List];
            169 Swap "swap" [Register, Register];
            172 InitYregs "init_yregs" [List];
            173 RecvMarkerBind "recv_marker_bind" [Source, Source];
            174 RecvMarkerClear "recv_marker_clear" [Source];
            175 RecvMarkerReserve "recv_marker_reserve" [Register];
            176 RecvMarkerUse "recv_marker_use" [Source];
            180 Badrecord "badrecord" [Source];
            181 UpdateRecord "update_record" [Atom, Number, Source, Register, List];
        }
    };
}

/// An opcode with its name and the kinds of its operands.
#[derive(Clone, Copy, Debug)]
pub struct OpRow {
    pub opcode: Opcode,
    pub name: &'static str,
    pub kinds: &'static [Kind],
}

/// The number of an opcode.
pub fn number(opcode: Opcode) -> u8
    ensures { result ≡ number_of opcode }
{
    opcode as u8
}

/// The opcode with a number, if it is of the profile.
pub fn by_number(number: u8) -> Option<Opcode>
    ensures value { result ≡ opcode_of number }
    ensures found { IfSome result (λ o. number_of o ≡ number) }
    ensures none { IfNone result ((o : Opcode) → number_of o ≢ number) }
{
    macro_rules! by_number {
        ($($number:literal $opcode:ident $name:literal [$($kind:ident$(($arity:literal))?),*];)*) => {
            match number {
                $($number => Some(Opcode::$opcode),)*
                _ => None,
            }
        };
    }
    with_rows!(by_number)
}

/// The kinds of an opcode's operands, in their order.
pub fn kinds(opcode: Opcode) -> &'static [Kind]
    ensures { result.now ≡ kinds_of opcode }
{
    macro_rules! kinds {
        ($($number:literal $opcode:ident $name:literal [$($kind:ident$(($arity:literal))?),*];)*) => {
            match opcode {
                $(Opcode::$opcode => &[$(Kind::$kind$(($arity))?),*],)*
            }
        };
    }
    with_rows!(kinds)
}

/// The name of an opcode.
pub fn name(opcode: Opcode) -> &'static str
    ensures { result.now ≡ name_of opcode }
{
    macro_rules! name {
        ($($number:literal $opcode:ident $name:literal [$($kind:ident$(($arity:literal))?),*];)*) => {
            match opcode {
                $(Opcode::$opcode => $name,)*
            }
        };
    }
    with_rows!(name)
}

/// The opcode with a number, if it is of the profile, with its name and kinds.
pub fn row(number: u8) -> Option<OpRow>
    ensures number { IfSome result (λ r. number_of r.opcode ≡ number) }
    ensures name { IfSome result (λ r. r.name.now ≡ name_of r.opcode) }
    ensures kinds { IfSome result (λ r. r.kinds.now ≡ kinds_of r.opcode) }
    ensures none { IfNone result ((o : Opcode) → number_of o ≢ number) }
{
    let opcode = by_number(number)?;
    Some(OpRow {
        opcode,
        name: name(opcode),
        kinds: kinds(opcode),
    })
}

macro_rules! opcodes {
    ($($number:literal $opcode:ident $name:literal [$($kind:ident$(($arity:literal))?),*];)*) => {
        [$(Opcode::$opcode),*]
    };
}

static OPCODES: [Opcode; 83] = with_rows!(opcodes);

// The first of these with the name.
fn named_in(opcodes: &[Opcode], text: &str) -> Option<Opcode>
    ensures value { result ≡ find (λ o. same_text (name_of o) text.now) opcodes.now }
    ensures found { IfSome result (λ o. name_of o ≡ text.now) }
    ensures apart { IfNone result ((k : ℕ) (d : Opcode) → k < length opcodes.now → name_of (get_or opcodes.now k d) ≢ text.now) }
{
    for opcode in opcodes {
        if name(*opcode) == text {
            return Some(*opcode);
        }
    }
    None
}

/// The opcode with a name, if it is of the profile.
pub fn by_name(text: &str) -> Option<Opcode>
    ensures value { result ≡ opcode_named text.now }
    ensures found { IfSome result (λ o. name_of o ≡ text.now) }
    ensures none { IfNone result ((o : Opcode) → name_of o ≢ text.now) }
{
    match named_in(&OPCODES, text) {
        Some(opcode) => Some(opcode),
        None => None,
    }
}
