//! Fractions of both widths beside an arithmetic without a limit.
use frac128::{Exact, Frac, Frac64, Op, Wide, read_fraction};
use std::alloc::{AllocError, Global};
use std::cmp::Ordering;
use std::test::Fail;

// Operations on narrow fractions near 2^63 - 1, with the answers of an arithmetic without a limit.
const VECTORS: &str = "plus 9223372036854775807 0 9223372036854775807\n\
plus 9223372036854775807 1 wide\n\
plus 9223372036854775806 1 9223372036854775807\n\
plus -9223372036854775807 -1 wide\n\
plus -9223372036854775806 -1 -9223372036854775807\n\
plus -9223372036854775807 9223372036854775807 0\n\
plus 1/9223372036854775807 1/9223372036854775806 wide\n\
plus 1/9223372036854775807 -1/9223372036854775807 0\n\
plus 9223372036854775807/2 9223372036854775807/2 wide\n\
plus 9223372036854775805/2 1/2 4611686018427387903\n\
plus 9223372036854775807/2 -9223372036854775807/2 0\n\
plus 9223372036854775807/3 1/3 wide\n\
plus 9223372036854775807/2 1/3 wide\n\
plus 1/2 9223372036854775807 wide\n\
plus 1/4611686018427387904 1/2305843009213693952 3/4611686018427387904\n\
plus 1/4611686018427387904 1/3 wide\n\
plus 1/4611686018427387904 1/4611686018427387904 1/2305843009213693952\n\
plus 1/12884901888 1/21474836480 1/8053063680\n\
plus 1/1729382256910270464 1/1152921504606846976 5/3458764513820540928\n\
plus 1/2147483648 1/2147483647 4294967295/4611686016279904256\n\
plus 1/8589934592 1/8589934591 wide\n\
minus -9223372036854775807 1 wide\n\
minus -9223372036854775807 -1 -9223372036854775806\n\
minus 9223372036854775807 9223372036854775807 0\n\
minus 9223372036854775807/2 9223372036854775805/2 1\n\
minus 9223372036854775807/2 -9223372036854775807/2 wide\n\
minus 1/9223372036854775806 1/9223372036854775807 wide\n\
minus 0 9223372036854775807 -9223372036854775807\n\
minus 0 1/9223372036854775807 -1/9223372036854775807\n\
minus -9223372036854775807/2 9223372036854775807/2 wide\n\
minus 9223372036854775806 -1 9223372036854775807\n\
minus 9223372036854775807 -1 wide\n\
times 4294967296 2147483648 wide\n\
times 4294967296 4294967296 wide\n\
times 2147483648 2147483648 4611686018427387904\n\
times 4294967296 -1073741824 -4611686018427387904\n\
times 9223372036854775807/2 2/9223372036854775807 1\n\
times 1/9223372036854775807 9223372036854775807 1\n\
times 1/4294967296 1/4294967296 wide\n\
times 1/2147483648 1/2147483648 1/4611686018427387904\n\
times 4611686018427387904/3 9/2305843009213693952 6\n\
times 0 1/9223372036854775807 0\n\
times 9223372036854775807 -1 -9223372036854775807\n\
times 9223372036854775807 2 wide\n\
times 9223372036854775807/2 2 9223372036854775807\n\
times 9223372036854775807/2 1/2 9223372036854775807/4\n\
times -9223372036854775807 -1 9223372036854775807\n\
times 2/9223372036854775807 9223372036854775807/4 1/2\n\
over 1 9223372036854775807 1/9223372036854775807\n\
over 1 -9223372036854775807 -1/9223372036854775807\n\
over 9223372036854775807 1/2 wide\n\
over 1/9223372036854775807 9223372036854775807 wide\n\
over 9223372036854775807/2 1/2 9223372036854775807\n\
over -4611686018427387904/7 2305843009213693952/21 -6\n\
over 0 9223372036854775807 0\n\
over -9223372036854775807 -9223372036854775807 1\n\
over 9223372036854775807/2 -2 -9223372036854775807/4\n\
over 1/9223372036854775807 1/9223372036854775807 1\n\
over 9223372036854775807 -1/9223372036854775807 wide\n\
cmp 9223372036854775807/9223372036854775806 9223372036854775806/9223372036854775805 less\n\
cmp 9223372036854775806/9223372036854775807 9223372036854775805/9223372036854775806 greater\n\
cmp -9223372036854775807/9223372036854775806 -9223372036854775806/9223372036854775805 greater\n\
cmp -9223372036854775806/9223372036854775807 -9223372036854775805/9223372036854775806 less\n\
cmp 9223372036854775807 9223372036854775807/2 greater\n\
cmp 1/9223372036854775807 0 greater\n\
cmp -1/9223372036854775807 0 less\n\
cmp 1/9223372036854775807 1/9223372036854775807 equal\n\
cmp 8589934592/4294967297 17179869184/8589934593 less\n\
cmp -9223372036854775807 9223372036854775807 less\n\
cmp 9223372036854775807 -9223372036854775807 greater\n\
cmp -9223372036854775807/2 -9223372036854775807 greater\n\
cmp -1/2 -1/3 less\n\
cmp -9223372036854775807 -9223372036854775807 equal\n\
negate 9223372036854775807 0 -9223372036854775807\n\
negate -9223372036854775807 0 9223372036854775807\n\
negate 1/9223372036854775807 0 -1/9223372036854775807\n\
negate 0 0 0\n\
negate -9223372036854775807/9223372036854775806 0 9223372036854775807/9223372036854775806\n\
plus -28181/3209 -2151102015780040824/16045 -2151102015780181729/16045\n\
minus 3823124950281309964/5 -4462/9 wide\n\
times -587940118/670115944575854055 -777830764/32023 wide\n\
over 1215582952/7895 -242988262/466132762578498773 wide\n\
cmp -8633193/567139376 2074524847/652506261 less\n\
plus -2/825 2/5 328/825\n\
times -1/53646186 -26763943413793256/78131165 1216542882445148/190519954999395\n\
minus 36120009860327174/91785996894193245 3/41329940513492840 wide\n\
plus 438203260 -8845/7 3067413975/7\n\
minus 5627/1001 1/1144 45009/8008\n\
times -762109550284450577/23855 449340289/137965072 wide\n\
over -412/11087775 -589828579743770263/1529519147455205242 wide\n\
cmp -1253050460/3688902935430542077 -15613/14680 greater\n\
plus -18724/41733381 73631752/13911127 220876532/41733381\n\
times -3355255435604919404/566236153 -2242199552467145889/6985 wide\n\
minus 4402229519912466166/7965 1/1593 4402229519912466161/7965\n\
plus -919515140094796247/512508502409195499 -952402116/71302376281360349 wide\n\
minus 31148 797153011/6 -796966123/6\n\
times 2773617816062192583/407427004 2887/15 wide\n\
over -501870919580002155/657806078515143922 934478710270538224/5 wide\n\
cmp -44602141045281644/94494863 -95839767381615476 greater\n\
plus 521351176385088565/14 23151/3098100873445666862 wide\n\
times 651909349255925126/394330247410583559 -1/6 -325954674627962563/1182990742231750677\n\
minus 1162757312/11 78372185 300663277/11";

// The same on whole numbers of 128 bits near 2^63, 2^64 and 2^127 - 1.
const WHOLES: &str = "plus 9223372036854775807 1 9223372036854775808\n\
minus -9223372036854775808 1 -9223372036854775809\n\
plus 18446744073709551615 1 18446744073709551616\n\
minus -18446744073709551616 1 -18446744073709551617\n\
times 18446744073709551615 18446744073709551615 wide\n\
times 18446744073709551615 9223372036854775808 170141183460469231722463931679029329920\n\
times 18446744073709551616 9223372036854775808 wide\n\
times -18446744073709551616 9223372036854775807 -170141183460469231713240559642174554112\n\
plus 170141183460469231731687303715884105727 0 170141183460469231731687303715884105727\n\
plus 170141183460469231731687303715884105727 1 wide\n\
minus -170141183460469231731687303715884105727 1 wide\n\
cmp 170141183460469231731687303715884105727 -170141183460469231731687303715884105727 greater";

fn put<N: Exact>(found: Result<N, Wide>, into: &mut Vec<u8>) -> Result<(), AllocError> {
    match found {
        Ok(value) => value.widen().print(into),
        Err(_) => into.extend_from_slice(b"wide"),
    }
}

fn quotient<N: Exact>(left: N, right: N) -> Result<N, Wide> {
    if right.widen() == Frac::whole(0) {
        return Ok(right);
    }
    left.over(right)
}

// How they compare, where all the comparisons agree.
fn order<N: Exact>(left: N, right: N) -> &'static str {
    match left.cmp(&right) {
        Ordering::Less if left < right && left != right => "less",
        Ordering::Equal if left == right && left <= right => "equal",
        Ordering::Greater if left > right && left != right => "greater",
        _ => "at odds",
    }
}

// The answer to the operation of that name.
fn answer<N: Exact>(alloc: Global, name: &str, left: N, right: N) -> Result<Vec<u8>, AllocError> {
    let mut text = Vec::new(alloc);
    match name {
        "plus" => put(left.plus(right), &mut text)?,
        "minus" => put(left.minus(right), &mut text)?,
        "times" => put(left.times(right), &mut text)?,
        "over" => put(quotient(left, right), &mut text)?,
        "negate" => put(Ok(left.negate()), &mut text)?,
        _ => text.extend_from_slice(order(left, right).as_bytes())?,
    }
    Ok(text)
}

fn read<N: Exact>(text: &str) -> Option<N> {
    match read_fraction(text.as_bytes()) {
        Some(value) => N::narrow(value),
        None => None,
    }
}

fn agrees<N: Exact>(alloc: Global, line: &str) -> Result<bool, AllocError> {
    let mut words = line.split(' ');
    let (Some(name), Some(left), Some(right), Some(want)) = (
        words.next(),
        words.next(),
        words.next(),
        words.next(),
    ) else {
        return Ok(false);
    };
    let (Some(left), Some(right)) = (read::<N>(left), read::<N>(right)) else {
        return Ok(false);
    };
    let found = answer(alloc, name, left, right)?;
    Ok(found.as_slice() == want.as_bytes())
}

// A value by way of a narrow fraction.
fn narrowed(value: Frac) -> Option<Frac> {
    let narrow = Frac64::narrow(value)?;
    Some(narrow.widen())
}

// Whether a difference fits, and is too wide for narrow fractions, which tell their operands.
fn parts_at(left: Frac, right: Frac) -> bool {
    let (Some(narrow), Some(other)) = (Frac64::narrow(left), Frac64::narrow(right)) else {
        return false;
    };
    let Err(wide) = narrow.minus(other) else {
        return false;
    };
    let told = wide.op == Op::Minus && wide.left == left && wide.right == right;
    told && left.minus(right).is_ok()
}

// The first line of a table that is not so.
fn first_wrong<N: Exact>(
    alloc: Global,
    lines: &'static str,
) -> Result<Option<&'static str>, AllocError> {
    for line in lines.lines() {
        if !agrees::<N>(alloc, line)? {
            return Ok(Some(line));
        }
    }
    Ok(None)
}

#[test]
fn vectors(rt: HostRuntime) -> Result<(), Fail> {
    assert_eq!(rt; first_wrong::<Frac64>(rt.alloc(), VECTORS)?, None);
    assert_eq!(rt; first_wrong::<Frac>(rt.alloc(), WHOLES)?, None);
    Ok(())
}

// What is refused carries the operands, and the two limits part.
#[test]
fn edges(rt: HostRuntime) {
    assert!(rt; narrowed(Frac::whole(i64::MIN)).is_none());
    assert!(rt; narrowed(Frac::whole(i64::MAX)) == Some(Frac::whole(i64::MAX)));
    assert!(rt; Frac64::zero().widen() == Frac::zero() && Frac64::one().widen() == Frac::one());
    assert!(rt; parts_at(Frac::whole(i64::MAX), Frac::whole(-1)));
}
