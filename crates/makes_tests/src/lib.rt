//! Tests of the carriers over memory, in a crate of their own so that the makes are not proved twice.
#![tactic(auto)]

#[cfg(test)]
mod tests {
    use carrier::fault::CarrierFault;
    use carrier::{Carrier, WritingCarrier};
    use makes::image::Image;
    use makes::image_mut::ImageMut;
    use makes::layout::{Block1200, Block4800, Disk};
    use std::test::Fail;

    #[test]
    fn an_empty_memory_has_no_cell(rt: HostRuntime) {
        let mut packet = [7; 36];
        let image = Image::new(Disk, &[]);
        assert_eq!(rt; image.count(), 0);
        assert_eq!(rt;
            image.get(0, &mut packet),
            Err(CarrierFault::NoSuchCell { cell: 0 })
        );
        assert_eq!(rt; packet[0], 7);
    }

    #[test]
    fn the_last_cell_and_the_one_behind_it(rt: HostRuntime) {
        let mut memory = [1; 310];
        let mut packet = [7; 36];
        {
            let mut image = ImageMut::new(Block1200, &mut memory);
            image.clear();
            assert_eq!(rt; image.count(), 6);
            assert_eq!(rt;
                image.get(6, &mut packet),
                Err(CarrierFault::NoSuchCell { cell: 6 })
            );
            assert_eq!(rt; packet[35], 7);
            assert_eq!(rt; image.put(5, &packet), Ok(()));
            assert_eq!(rt;
                image.put(6, &packet),
                Err(CarrierFault::NoSuchCell { cell: 6 })
            );
            assert_eq!(rt; image.get(4, &mut packet), Ok(()));
            assert_eq!(rt; packet[0], 0x88);
            assert_eq!(rt; image.get(5, &mut packet), Ok(()));
            assert_eq!(rt; packet[0], 7);
        }
        // cell 5 begins at byte 150 + 16 + 2 * 36; what no block has a use for is as before
        assert_eq!(rt;
            [memory[237], memory[238], memory[273], memory[274]],
            [0x88, 7, 7, 0x88]
        );
        assert_eq!(rt;
            [memory[14], memory[15], memory[143], memory[144]],
            [1, 0, 0x88, 1]
        );
        assert_eq!(rt; [memory[299], memory[300], memory[309]], [1, 1, 1]);
    }

    #[test]
    fn the_first_wrong_fixed_byte_is_named(rt: HostRuntime) {
        let mut memory = [0; 1200];
        let mut packet = [7; 36];
        ImageMut::new(Block4800, &mut memory).clear();
        memory[600 + 593] = 0x89;
        memory[600 + 592] = 0;
        let image = Image::new(Block4800, &memory);
        assert_eq!(rt; image.get(15, &mut packet), Ok(()));
        assert_eq!(rt; packet[0], 0x88);
        packet[0] = 7;
        assert_eq!(rt;
            image.get(16, &mut packet),
            Err(CarrierFault::Damaged {
                cell: 16,
                byte: 1192,
            })
        );
        assert_eq!(rt;
            image.get(31, &mut packet),
            Err(CarrierFault::Damaged {
                cell: 31,
                byte: 1192,
            })
        );
        assert_eq!(rt; packet[0], 7);
    }

    #[test]
    fn a_damaged_cell_is_not_written(rt: HostRuntime) {
        let mut memory = [0; 150];
        let damaged = Err(CarrierFault::Damaged { cell: 1, byte: 15 });
        {
            let mut image = ImageMut::new(Block1200, &mut memory);
            image.clear();
        }
        memory[15] = 1;
        memory[124] = 0;
        assert_eq!(rt;
            ImageMut::new(Block1200, &mut memory).put(1, &[7; 36]),
            damaged
        );
        assert_eq!(rt; [memory[51], memory[52], memory[87]], [0x88, 0x88, 0x88]);
    }

    #[test]
    fn a_million_cells_at_most(rt: HostRuntime) -> Result<(), Fail> {
        let mut memory = vec![in rt.alloc(); 0u8; 4465 * 8064]?;
        let mut packet = [7; 36];
        {
            let mut image = ImageMut::new(Disk, memory.as_mut_slice());
            assert_eq!(rt; image.count(), 1_000_000);
            image.clear();
            assert_eq!(rt; image.put(999_999, &packet), Ok(()));
            assert_eq!(rt; image.get(999_999, &mut packet), Ok(()));
            assert_eq!(rt;
                image.put(1_000_000, &packet),
                Err(CarrierFault::NoSuchCell { cell: 1_000_000 })
            );
        }
        assert_eq!(rt; memory.get(35_999_963).copied(), Some(0x88));
        assert_eq!(rt; memory.get(35_999_964).copied(), Some(7));
        assert_eq!(rt; memory.get(36_000_000).copied(), Some(0));
        Ok(())
    }
}
