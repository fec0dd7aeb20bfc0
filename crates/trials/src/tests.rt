use crate::images::*;
use ecode::sheet::Sheet;
use host::pitch;
use loader::check as load;
use loader::first::first_program;
use loader::load::{least_window, load_sum};
use std::test::Fail;
use wide::sheet::plain;

// The number and place of the refusal, 0 and 0 where the image is accepted.
fn answer(sheet: &Sheet, image: &[u8], budgets: &[u8]) -> (u8, usize) {
    match load(sheet, image, budgets) {
        Ok(_) => (0, 0),
        Err(fault) => {
            let refusal = fault.refusal();
            (refusal.number, refusal.place)
        }
    }
}

#[test]
fn accepts_the_examples(rt: HostRuntime) {
    let sheet = pitch::sheet();
    assert_eq!(rt; answer(&sheet, &lone(), &[1, 1]), (0, 0));
    assert_eq!(rt; answer(&sheet, &two_rate(), &[12, 4]), (0, 0));
    assert_eq!(rt; answer(&sheet, &two_rate(), &[13, 4]), (11, 1));
}

#[test]
fn three_thirds_fit_and_a_hair_more_does_not(rt: HostRuntime) {
    let sheet = plain();
    assert_eq!(rt;
        answer(&sheet, &thirds(), &[80, 80, 80, 240, 1, 1, 1, 240]),
        (0, 0)
    );
    assert_eq!(rt;
        answer(&sheet, &thirds(), &[80, 80, 81, 1, 1, 1, 1, 1]),
        (11, 2)
    );
    assert_eq!(rt;
        answer(&sheet, &thirds(), &[240, 1, 1, 1, 1, 1, 1, 1]),
        (11, 1)
    );
}

#[test]
fn a_join_takes_the_released_side(rt: HostRuntime) {
    let sheet = pitch::sheet();
    assert_eq!(rt; answer(&sheet, &join(), &[12, 4]), (0, 0));
    assert_eq!(rt; answer(&sheet, &wrong_join(), &[12, 4]), (9, 1));
}

// Every image that is cut short is refused, and the earliest rule is named.
#[test]
fn cut_images_are_refused(rt: HostRuntime) {
    let sheet = pitch::sheet();
    let image = two_rate();
    for n in 0..image.len() {
        let (number, _) = answer(&sheet, &image[0..n], &[12, 4]);
        assert_eq!(rt; number, if n < 8 { 1 } else { 2 });
    }
}

#[test]
fn tells_windows_and_load(rt: HostRuntime) -> Result<(), Fail> {
    let sheet = pitch::sheet();
    let Ok(program) = load(&sheet, &two_rate(), &[12, 4]) else {
        return Err(Fail::new("refused"));
    };
    assert_eq!(rt; least_window(&program.listing, 0), 20);
    assert_eq!(rt; least_window(&program.listing, 1), 10);
    let Ok(sum) = load_sum(&sheet, &program) else {
        return Err(Fail::new("overload"));
    };
    assert_eq!(rt; (sum.parts, sum.whole), (200, 200));
    let first = first_program(&sheet);
    assert_eq!(rt; least_window(&first.listing, 0), 0);
    Ok(())
}
