use crate::tests::checks::is_written;
use pm_token::Literal;

#[test]
fn integers_are_written_in_decimal(rt: HostRuntime) {
    let alloc = rt.alloc();
    is_written(&rt, Literal::u8_unsuffixed(alloc, 255), "255");
    is_written(&rt, Literal::u16_unsuffixed(alloc, 65535), "65535");
    is_written(&rt, Literal::u32_unsuffixed(alloc, 0), "0");
    is_written(&rt, Literal::u64_unsuffixed(alloc, 10), "10");
    let greatest = "340282366920938463463374607431768211455";
    is_written(&rt, Literal::u128_unsuffixed(alloc, u128::MAX), greatest);
    is_written(&rt, Literal::usize_unsuffixed(alloc, 7), "7");
}

#[test]
fn negative_integers_have_their_sign(rt: HostRuntime) {
    let alloc = rt.alloc();
    is_written(&rt, Literal::i8_unsuffixed(alloc, -128), "-128");
    is_written(&rt, Literal::i16_unsuffixed(alloc, -1), "-1");
    is_written(&rt, Literal::i32_unsuffixed(alloc, 3), "3");
    is_written(&rt, Literal::i64_unsuffixed(alloc, -10), "-10");
    let least = "-170141183460469231731687303715884105728";
    is_written(&rt, Literal::i128_unsuffixed(alloc, i128::MIN), least);
    is_written(&rt, Literal::isize_unsuffixed(alloc, 0), "0");
}

#[test]
fn the_type_follows_the_digits(rt: HostRuntime) {
    let alloc = rt.alloc();
    is_written(&rt, Literal::u8_suffixed(alloc, 255), "255u8");
    is_written(&rt, Literal::u16_suffixed(alloc, 1), "1u16");
    is_written(&rt, Literal::u32_suffixed(alloc, 0), "0u32");
    is_written(
        &rt,
        Literal::u64_suffixed(alloc, u64::MAX),
        "18446744073709551615u64",
    );
    let greatest = "340282366920938463463374607431768211455u128";
    is_written(&rt, Literal::u128_suffixed(alloc, u128::MAX), greatest);
    is_written(&rt, Literal::usize_suffixed(alloc, 7), "7usize");
}

#[test]
fn it_follows_those_of_negative_numbers(rt: HostRuntime) {
    let alloc = rt.alloc();
    is_written(&rt, Literal::i8_suffixed(alloc, -128), "-128i8");
    is_written(&rt, Literal::i16_suffixed(alloc, -1), "-1i16");
    is_written(&rt, Literal::i32_suffixed(alloc, -3), "-3i32");
    is_written(
        &rt,
        Literal::i64_suffixed(alloc, i64::MIN),
        "-9223372036854775808i64",
    );
    let least = "-170141183460469231731687303715884105728i128";
    is_written(&rt, Literal::i128_suffixed(alloc, i128::MIN), least);
    is_written(&rt, Literal::isize_suffixed(alloc, 12), "12isize");
}
