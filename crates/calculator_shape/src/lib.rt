// Deciding what a step is: the shape of its operation, by the standard's number.
#![tactic(auto)]

ghost use Rattle.std.specs.Prelude.{◌≡◌};
ghost use Rattle.standard.specs.Instruction.{instruction};
ghost use Rattle.calculator_rules.specs.Shape.{shape};

use calculator_rules::shape::{Kind, Shape};

pub fn decide(operation: u16) -> Shape
    ensures { result ≡ shape (instruction operation) }
{
    match operation {
        12 => Shape::Constant,
        13 => Shape::Shuffle,
        15..=17 => Shape::Splat(Kind::I32),
        18 => Shape::Splat(Kind::I64),
        19 => Shape::Splat(Kind::F32),
        20 => Shape::Splat(Kind::F64),
        21 | 22 => Shape::Extract(16),
        24 | 25 => Shape::Extract(8),
        27 | 31 => Shape::Extract(4),
        29 | 33 => Shape::Extract(2),
        23 => Shape::Replace(16, Kind::I32),
        26 => Shape::Replace(8, Kind::I32),
        28 => Shape::Replace(4, Kind::I32),
        30 => Shape::Replace(2, Kind::I64),
        32 => Shape::Replace(4, Kind::F32),
        34 => Shape::Replace(2, Kind::F64),
        83 | 99 | 100 | 131 | 132 | 163 | 164 | 195 | 196 => Shape::Test,
        107..=109 | 139..=141 | 171..=173 | 203..=205 => Shape::Shift,
        77
        | 94..=98
        | 103..=106
        | 116
        | 117
        | 122
        | 124..=129
        | 135..=138
        | 148
        | 160
        | 161
        | 167..=170
        | 192
        | 193
        | 199..=202
        | 224
        | 225
        | 236
        | 237
        | 248..=255 => Shape::Unary,
        82 | 265..=268 | 275 => Shape::Ternary,
        14 | 35..=76 | 78..=81 => Shape::Binary,
        101 | 102 | 110..=115 | 118..=121 | 123 => Shape::Binary,
        130 | 133 | 134 | 142..=147 | 149..=153 | 155..=159 => Shape::Binary,
        174 | 177 | 181..=186 | 188..=191 => Shape::Binary,
        206 | 209 | 213..=223 | 228..=235 | 240..=247 => Shape::Binary,
        256 | 269..=274 => Shape::Binary,
        _ => Shape::None,
    }
}
