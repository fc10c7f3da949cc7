// Loads and stores: functions 220 to 231, 234 to 253 and 260 to 271, in the form at pointer and offset and in the form at an address. An access past
// the end is refused, with 7 and its shortfall, after a lane number that is too large, with 4.
use crate::answer::Answer;
use simd::V128;

// Stores at pointer and offset.
pub fn store(f: u16, a: V128, pointer: u64, offset: u64, lane: u8, memory: &mut [u8]) -> Answer {
    match f {
        220 => return Answer::of_store(memory_stores::v128_store(memory, pointer, offset, a)),
        222 => return Answer::of_store(memory_stores::v128_store8_lane(
            memory, pointer, offset, a, lane,
        )),
        223 => return Answer::of_store(memory_stores::v128_store16_lane(
            memory, pointer, offset, a, lane,
        )),
        224 => return Answer::of_store(memory_stores::v128_store32_lane(
            memory, pointer, offset, a, lane,
        )),
        225 => return Answer::of_store(memory_stores::v128_store64_lane(
            memory, pointer, offset, a, lane,
        )),
        _ => return Answer::none(),
    }
}

// Stores at an address.
pub fn store_at(f: u16, a: V128, address: usize, lane: u8, memory: &mut [u8]) -> Answer {
    match f {
        221 => return Answer::of_store(memory_stores::v128_store_at(memory, address, a)),
        226 => return Answer::of_store(memory_stores::v128_store8_lane_at(
            memory, address, a, lane,
        )),
        227 => return Answer::of_store(memory_stores::v128_store16_lane_at(
            memory, address, a, lane,
        )),
        228 => return Answer::of_store(memory_stores::v128_store32_lane_at(
            memory, address, a, lane,
        )),
        229 => return Answer::of_store(memory_stores::v128_store64_lane_at(
            memory, address, a, lane,
        )),
        _ => return Answer::none(),
    }
}

// Loads of a whole vector at pointer and offset.
pub fn load(f: u16, pointer: u64, offset: u64, memory: &[u8]) -> Answer {
    let answered = match f {
        230 => memory_loads::v128_load(memory, pointer, offset),
        234 => memory_loads::v128_load32_zero(memory, pointer, offset),
        235 => memory_loads::v128_load64_zero(memory, pointer, offset),
        238 => memory_loads::v128_load8_splat(memory, pointer, offset),
        239 => memory_loads::v128_load16_splat(memory, pointer, offset),
        240 => memory_loads::v128_load32_splat(memory, pointer, offset),
        241 => memory_loads::v128_load64_splat(memory, pointer, offset),
        260 => memory_loads::v128_load8x8_s(memory, pointer, offset),
        261 => memory_loads::v128_load8x8_u(memory, pointer, offset),
        262 => memory_loads::v128_load16x4_s(memory, pointer, offset),
        263 => memory_loads::v128_load16x4_u(memory, pointer, offset),
        264 => memory_loads::v128_load32x2_s(memory, pointer, offset),
        265 => memory_loads::v128_load32x2_u(memory, pointer, offset),
        _ => return Answer::none(),
    };
    Answer::of_load(answered)
}

// Loads of a whole vector at an address.
pub fn load_at(f: u16, address: usize, memory: &[u8]) -> Answer {
    let answered = match f {
        231 => memory_loads::v128_load_at(memory, address),
        236 => memory_loads::v128_load32_zero_at(memory, address),
        237 => memory_loads::v128_load64_zero_at(memory, address),
        242 => memory_loads::v128_load8_splat_at(memory, address),
        243 => memory_loads::v128_load16_splat_at(memory, address),
        244 => memory_loads::v128_load32_splat_at(memory, address),
        245 => memory_loads::v128_load64_splat_at(memory, address),
        266 => memory_loads::v128_load8x8_s_at(memory, address),
        267 => memory_loads::v128_load8x8_u_at(memory, address),
        268 => memory_loads::v128_load16x4_s_at(memory, address),
        269 => memory_loads::v128_load16x4_u_at(memory, address),
        270 => memory_loads::v128_load32x2_s_at(memory, address),
        271 => memory_loads::v128_load32x2_u_at(memory, address),
        _ => return Answer::none(),
    };
    Answer::of_load(answered)
}

// Loads of one lane of a at pointer and offset.
pub fn load_lane(f: u16, a: V128, pointer: u64, offset: u64, lane: u8, memory: &[u8]) -> Answer {
    let answered = match f {
        246 => memory_loads::v128_load8_lane(memory, pointer, offset, a, lane),
        247 => memory_loads::v128_load16_lane(memory, pointer, offset, a, lane),
        248 => memory_loads::v128_load32_lane(memory, pointer, offset, a, lane),
        249 => memory_loads::v128_load64_lane(memory, pointer, offset, a, lane),
        _ => return Answer::none(),
    };
    Answer::of_load(answered)
}

// Loads of one lane of a at an address.
pub fn load_lane_at(f: u16, a: V128, address: usize, lane: u8, memory: &[u8]) -> Answer {
    let answered = match f {
        250 => memory_loads::v128_load8_lane_at(memory, address, a, lane),
        251 => memory_loads::v128_load16_lane_at(memory, address, a, lane),
        252 => memory_loads::v128_load32_lane_at(memory, address, a, lane),
        253 => memory_loads::v128_load64_lane_at(memory, address, a, lane),
        _ => return Answer::none(),
    };
    Answer::of_load(answered)
}
