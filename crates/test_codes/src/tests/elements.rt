// Elements of the field of the Reed-Solomon code.
use gf256::Elem;

// Powers, logarithms and inverses as in published tables of this field.
#[test]
fn published_values(rt: HostRuntime) {
    for (exponent, element) in [
        (0, 1),
        (8, 29),
        (10, 116),
        (25, 3),
        (99, 134),
        (254, 142),
        (255, 1),
    ] {
        assert_eq!(rt; Elem::power(exponent).0, element);
    }
    assert_eq!(rt; (Elem(3).log(), Elem(2).inv().0), (25, 142));
    assert_eq!(rt; (Elem(2).mul(Elem(128)).0, Elem(3).mul(Elem(0)).0), (29, 0));
    assert_eq!(rt;
        (Elem(142).times_power(255).0, Elem(83).add(Elem(202)).0),
        (142, 153)
    );
}
