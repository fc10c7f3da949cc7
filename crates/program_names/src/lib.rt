// The names of the operations, both ways: the number of a name, and the name of a number.
#![tactic(auto)]

ghost use Rattle.std.specs.Prelude.{◌≡◌};
ghost use Rattle.program_digits.specs.Put.{Wrote};
ghost use Rattle.program_names.specs.Names.{name, number};

// The table of specs/Names.antt: a line for each number, an empty one where there is no instruction.
const NAMES: [u8; 3993] = *b"\
v128.load\nv128.load8x8_s\nv128.load8x8_u\nv128.load16x4_s\nv128.load16x4_u\nv128.load32x2_s\nv128.load32x2_u\nv128.load8_splat\n\
v128.load16_splat\nv128.load32_splat\nv128.load64_splat\nv128.store\nv128.const\ni8x16.shuffle\ni8x16.swizzle\ni8x16.splat\ni16x8.splat\n\
i32x4.splat\ni64x2.splat\nf32x4.splat\nf64x2.splat\ni8x16.extract_lane_s\ni8x16.extract_lane_u\ni8x16.replace_lane\ni16x8.extract_lane_s\n\
i16x8.extract_lane_u\ni16x8.replace_lane\ni32x4.extract_lane\ni32x4.replace_lane\ni64x2.extract_lane\ni64x2.replace_lane\n\
f32x4.extract_lane\nf32x4.replace_lane\nf64x2.extract_lane\nf64x2.replace_lane\ni8x16.eq\ni8x16.ne\ni8x16.lt_s\ni8x16.lt_u\ni8x16.gt_s\n\
i8x16.gt_u\ni8x16.le_s\ni8x16.le_u\ni8x16.ge_s\ni8x16.ge_u\ni16x8.eq\ni16x8.ne\ni16x8.lt_s\ni16x8.lt_u\ni16x8.gt_s\ni16x8.gt_u\ni16x8.le_s\n\
i16x8.le_u\ni16x8.ge_s\ni16x8.ge_u\ni32x4.eq\ni32x4.ne\ni32x4.lt_s\ni32x4.lt_u\ni32x4.gt_s\ni32x4.gt_u\ni32x4.le_s\ni32x4.le_u\ni32x4.ge_s\n\
i32x4.ge_u\nf32x4.eq\nf32x4.ne\nf32x4.lt\nf32x4.gt\nf32x4.le\nf32x4.ge\nf64x2.eq\nf64x2.ne\nf64x2.lt\nf64x2.gt\nf64x2.le\nf64x2.ge\n\
v128.not\nv128.and\nv128.andnot\nv128.or\nv128.xor\nv128.bitselect\nv128.any_true\nv128.load8_lane\nv128.load16_lane\nv128.load32_lane\n\
v128.load64_lane\nv128.store8_lane\nv128.store16_lane\nv128.store32_lane\nv128.store64_lane\nv128.load32_zero\nv128.load64_zero\n\
f32x4.demote_f64x2_zero\nf64x2.promote_low_f32x4\ni8x16.abs\ni8x16.neg\ni8x16.popcnt\ni8x16.all_true\ni8x16.bitmask\ni8x16.narrow_i16x8_s\n\
i8x16.narrow_i16x8_u\nf32x4.ceil\nf32x4.floor\nf32x4.trunc\nf32x4.nearest\ni8x16.shl\ni8x16.shr_s\ni8x16.shr_u\ni8x16.add\ni8x16.add_sat_s\n\
i8x16.add_sat_u\ni8x16.sub\ni8x16.sub_sat_s\ni8x16.sub_sat_u\nf64x2.ceil\nf64x2.floor\ni8x16.min_s\ni8x16.min_u\ni8x16.max_s\ni8x16.max_u\n\
f64x2.trunc\ni8x16.avgr_u\ni16x8.extadd_pairwise_i8x16_s\ni16x8.extadd_pairwise_i8x16_u\ni32x4.extadd_pairwise_i16x8_s\n\
i32x4.extadd_pairwise_i16x8_u\ni16x8.abs\ni16x8.neg\ni16x8.q15mulr_sat_s\ni16x8.all_true\ni16x8.bitmask\ni16x8.narrow_i32x4_s\n\
i16x8.narrow_i32x4_u\ni16x8.extend_low_i8x16_s\ni16x8.extend_high_i8x16_s\ni16x8.extend_low_i8x16_u\ni16x8.extend_high_i8x16_u\ni16x8.shl\n\
i16x8.shr_s\ni16x8.shr_u\ni16x8.add\ni16x8.add_sat_s\ni16x8.add_sat_u\ni16x8.sub\ni16x8.sub_sat_s\ni16x8.sub_sat_u\nf64x2.nearest\n\
i16x8.mul\ni16x8.min_s\ni16x8.min_u\ni16x8.max_s\ni16x8.max_u\n\ni16x8.avgr_u\ni16x8.extmul_low_i8x16_s\ni16x8.extmul_high_i8x16_s\n\
i16x8.extmul_low_i8x16_u\ni16x8.extmul_high_i8x16_u\ni32x4.abs\ni32x4.neg\n\ni32x4.all_true\ni32x4.bitmask\n\n\ni32x4.extend_low_i16x8_s\n\
i32x4.extend_high_i16x8_s\ni32x4.extend_low_i16x8_u\ni32x4.extend_high_i16x8_u\ni32x4.shl\ni32x4.shr_s\ni32x4.shr_u\ni32x4.add\n\n\n\
i32x4.sub\n\n\n\ni32x4.mul\ni32x4.min_s\ni32x4.min_u\ni32x4.max_s\ni32x4.max_u\ni32x4.dot_i16x8_s\n\ni32x4.extmul_low_i16x8_s\n\
i32x4.extmul_high_i16x8_s\ni32x4.extmul_low_i16x8_u\ni32x4.extmul_high_i16x8_u\ni64x2.abs\ni64x2.neg\n\ni64x2.all_true\ni64x2.bitmask\n\n\n\
i64x2.extend_low_i32x4_s\ni64x2.extend_high_i32x4_s\ni64x2.extend_low_i32x4_u\ni64x2.extend_high_i32x4_u\ni64x2.shl\ni64x2.shr_s\n\
i64x2.shr_u\ni64x2.add\n\n\ni64x2.sub\n\n\n\ni64x2.mul\ni64x2.eq\ni64x2.ne\ni64x2.lt_s\ni64x2.gt_s\ni64x2.le_s\ni64x2.ge_s\n\
i64x2.extmul_low_i32x4_s\ni64x2.extmul_high_i32x4_s\ni64x2.extmul_low_i32x4_u\ni64x2.extmul_high_i32x4_u\nf32x4.abs\nf32x4.neg\n\n\
f32x4.sqrt\nf32x4.add\nf32x4.sub\nf32x4.mul\nf32x4.div\nf32x4.min\nf32x4.max\nf32x4.pmin\nf32x4.pmax\nf64x2.abs\nf64x2.neg\n\nf64x2.sqrt\n\
f64x2.add\nf64x2.sub\nf64x2.mul\nf64x2.div\nf64x2.min\nf64x2.max\nf64x2.pmin\nf64x2.pmax\ni32x4.trunc_sat_f32x4_s\ni32x4.trunc_sat_f32x4_u\n\
f32x4.convert_i32x4_s\nf32x4.convert_i32x4_u\ni32x4.trunc_sat_f64x2_s_zero\ni32x4.trunc_sat_f64x2_u_zero\nf64x2.convert_low_i32x4_s\n\
f64x2.convert_low_i32x4_u\ni8x16.relaxed_swizzle\ni32x4.relaxed_trunc_f32x4_s\ni32x4.relaxed_trunc_f32x4_u\n\
i32x4.relaxed_trunc_f64x2_s_zero\ni32x4.relaxed_trunc_f64x2_u_zero\nf32x4.relaxed_madd\nf32x4.relaxed_nmadd\nf64x2.relaxed_madd\n\
f64x2.relaxed_nmadd\ni8x16.relaxed_laneselect\ni16x8.relaxed_laneselect\ni32x4.relaxed_laneselect\ni64x2.relaxed_laneselect\n\
f32x4.relaxed_min\nf32x4.relaxed_max\nf64x2.relaxed_min\nf64x2.relaxed_max\ni16x8.relaxed_q15mulr_s\ni16x8.relaxed_dot_i8x16_i7x16_s\n\
i32x4.relaxed_dot_i8x16_i7x16_add_s";

// The number of the operation of a name; 276 for any other text.
pub fn number(word: &[u8]) -> usize
    ensures { result ≡ number word.now }
{
    program_table::find(&NAMES, word)
}

// Puts the name of an operation into a lent slice from a place on, and answers the place after it.
pub fn put_name(out: &mut [u8], at: usize, operation: usize) -> usize
    ensures { Wrote out.old at (name operation) out.new result }
{
    program_table::put_line(out, at, &NAMES, operation)
}
