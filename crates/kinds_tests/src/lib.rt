// Tests of the point kinds. The tables hold codes reckoned by another way: each raised value written out as a string of binary digits, from which the digits are taken in turns.
#![tactic(auto)]

ghost use Rattle.std.specs.Prelude.{◌≡◌, length};
ghost use Rattle.kinds.specs.Kind.{size_of};

#[cfg(test)]
mod tests {
    use kinds::bar::BarPoint;
    use kinds::kind::PointKind;
    use kinds::lay::LayPoint;
    use kinds::points::{bit, corners, depth, inside, same};
    use std::fmt::Debug;
    use std::process::Abort;
    use std::test::Fail;

    // Course, shog, code and bytes: both ends of both axes, the middle, and some others.
    const LAY: [(u16, i16, u64, [u8; 4]); 12] = [
        (0, -2048, 0, [0, 0, 0, 248]),
        (0, 2047, 89478480, [0, 0, 255, 7]),
        (65535, -2048, 178956975, [255, 255, 0, 248]),
        (65535, 2047, 268435455, [255, 255, 255, 7]),
        (0, -1, 22369616, [0, 0, 255, 255]),
        (0, 0, 67108864, [0, 0, 0, 0]),
        (0, 1, 67108880, [0, 0, 1, 0]),
        (1, -2048, 1, [1, 0, 0, 248]),
        (32768, -1, 156587344, [0, 128, 255, 255]),
        (40000, 17, 204083728, [64, 156, 17, 0]),
        (65535, 0, 246065839, [255, 255, 0, 0]),
        (21845, -1366, 40265317, [85, 85, 170, 250]),
    ];

    // Course, bar, shog, code and bytes.
    const BAR: [(u16, u16, i16, u64, [u8; 6]); 14] = [
        (0, 0, -2048, 0, [0, 0, 0, 0, 0, 248]),
        (0, 0, 2047, 2454279504, [0, 0, 0, 0, 255, 7]),
        (0, 63, -2048, 4908515328, [0, 0, 63, 0, 0, 248]),
        (0, 63, 2047, 7362794832, [0, 0, 63, 0, 255, 7]),
        (65535, 0, -2048, 9817074351, [255, 255, 0, 0, 0, 248]),
        (65535, 0, 2047, 12271353855, [255, 255, 0, 0, 255, 7]),
        (65535, 63, -2048, 14725589679, [255, 255, 63, 0, 0, 248]),
        (65535, 63, 2047, 17179869183, [255, 255, 63, 0, 255, 7]),
        (0, 0, 0, 2147483648, [0, 0, 0, 0, 0, 0]),
        (12, 5, -7, 315315228, [12, 0, 5, 0, 249, 255]),
        (1, 0, -2048, 1, [1, 0, 0, 0, 0, 248]),
        (0, 1, -2048, 131072, [0, 0, 1, 0, 0, 248]),
        (0, 0, -2047, 16, [0, 0, 0, 0, 1, 248]),
        (40000, 42, 17, 15119684112, [64, 156, 42, 0, 17, 0]),
    ];

    // A point has its code and its bytes, and is read back from them. `out` has room for them.
    fn written<K: PointKind + PartialEq + Debug>(
        rt: &impl Abort,
        p: K,
        code: u64,
        bytes: &[u8],
        out: &mut [u8],
    ) -> Result<(), Fail>
        requires room { length out.old ≡ size_of K.PointKind.kind }
        requires long { length bytes.now ≡ size_of K.PointKind.kind }
    {
        if !p.on_axes() {
            return Err(Fail::new("off its axes"));
        }
        assert_eq!(rt; p.code(), code);
        p.write(out);
        assert_eq!(rt; &*out, bytes);
        assert_eq!(rt; K::read(bytes), Some(p));
        Ok(())
    }

    #[test]
    fn lay_points(rt: HostRuntime) -> Result<(), Fail> {
        for (course, shog, code, bytes) in LAY {
            written(&rt, LayPoint { course, shog }, code, &bytes, &mut [7; 4])?;
        }
        Ok(())
    }

    #[test]
    fn bar_points(rt: HostRuntime) -> Result<(), Fail> {
        for (course, bar, shog, code, bytes) in BAR {
            written(
                &rt,
                BarPoint { course, bar, shog },
                code,
                &bytes,
                &mut [7; 6],
            )?;
        }
        Ok(())
    }

    // One past either end of an axis.
    #[test]
    fn off_the_axes(rt: HostRuntime) {
        assert!(rt;
            !LayPoint {
                course: 0,
                shog: 2048,
            }
            .on_axes()
        );
        assert!(rt;
            !LayPoint {
                course: 0,
                shog: -2049,
            }
            .on_axes()
        );
        assert!(rt;
            !BarPoint {
                course: 0,
                bar: 64,
                shog: 0,
            }
            .on_axes()
        );
        assert!(rt;
            !BarPoint {
                course: 0,
                bar: 0,
                shog: 2048,
            }
            .on_axes()
        );
        assert!(rt;
            !BarPoint {
                course: 0,
                bar: 0,
                shog: -2049,
            }
            .on_axes()
        );
        assert_eq!(rt; LayPoint::read(&[0, 0, 0, 8]), None);
        assert_eq!(rt; LayPoint::read(&[0, 0, 255, 247]), None);
        assert_eq!(rt; BarPoint::read(&[0, 0, 64, 0, 0, 0]), None);
        assert_eq!(rt; BarPoint::read(&[0, 0, 0, 1, 0, 0]), None);
        assert_eq!(rt; BarPoint::read(&[0, 0, 0, 0, 0, 8]), None);
        assert_eq!(rt; BarPoint::read(&[0, 0, 0, 0, 255, 247]), None);
    }

    #[test]
    fn shapes(rt: HostRuntime) {
        assert_eq!(rt;
            (LayPoint::BITS, LayPoint::CAPACITY, LayPoint::SIZE),
            (28, 15, 4)
        );
        assert_eq!(rt;
            (
                LayPoint::DATA_PAGE,
                LayPoint::DIRECTORY_PAGE,
                LayPoint::HEAD_PAGE,
            ),
            (1, 3, 5)
        );
        assert_eq!(rt;
            (BarPoint::BITS, BarPoint::CAPACITY, BarPoint::SIZE),
            (34, 10, 6)
        );
        assert_eq!(rt;
            (
                BarPoint::DATA_PAGE,
                BarPoint::DIRECTORY_PAGE,
                BarPoint::HEAD_PAGE,
            ),
            (2, 4, 6)
        );
    }

    // Three points of which no one is a corner of the three.
    const A: LayPoint = LayPoint { course: 3, shog: 5 };

    const B: LayPoint = LayPoint {
        course: 9,
        shog: -4,
    };

    const C: LayPoint = LayPoint { course: 1, shog: 0 };

    #[test]
    fn windows(rt: HostRuntime) {
        let (low, high) = corners(A, &[B, C]);
        assert_eq!(rt;
            low,
            LayPoint {
                course: 1,
                shog: -4,
            }
        );
        assert_eq!(rt; high, LayPoint { course: 9, shog: 5 });
        assert!(rt; inside(&A, &low, &high) && inside(&B, &low, &high) && inside(&C, &low, &high));
        assert!(rt; inside(&low, &low, &high) && inside(&high, &low, &high));
        assert!(rt;
            !inside(
                &LayPoint {
                    course: 10,
                    shog: 0,
                },
                &low,
                &high,
            )
        );
        assert!(rt;
            !inside(
                &LayPoint {
                    course: 5,
                    shog: -5,
                },
                &low,
                &high,
            )
        );
        assert!(rt; same(&A, &A) && !same(&A, &B));
        assert!(rt;
            !same(&A, &LayPoint { course: 3, shog: 6 })
                && !same(&A, &LayPoint { course: 2, shog: 5 })
        );
    }

    // Codes of 28 bits: shog -1 begins 0001, shog 0 begins 0100, shog 1 differs from shog 0 in bit 23.
    #[test]
    fn first_bits(rt: HostRuntime) {
        let before = LayPoint {
            course: 0,
            shog: -1,
        };
        let middle = LayPoint { course: 0, shog: 0 };
        let after = LayPoint { course: 0, shog: 1 };
        assert_eq!(rt; depth(&before, &middle), 1);
        assert_eq!(rt; depth(&middle, &after), 23);
        assert_eq!(rt; depth(&middle, &middle), 28);
        assert_eq!(rt; bit(&before, 1), 0);
        assert_eq!(rt; bit(&before, 3), 1);
        assert_eq!(rt; bit(&middle, 1), 1);
        assert_eq!(rt; bit(&after, 23), 1);
        assert_eq!(rt; bit(&middle, 23), 0);
    }
}
