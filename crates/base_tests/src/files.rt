// A device in a file that is made for the test.

use dev_model::Device;
use file_device::FileDevice;
use std::fs;
use std::test::Fail;

const PATH: &str = "file_device_test.tmp";

#[test]
fn a_file_keeps_what_was_synced(rt: HostRuntime) -> Result<(), Fail> {
    let _ = fs::remove_file(&rt, PATH);
    {
        let mut device = FileDevice::open(&rt, PATH, 2)?;
        assert_eq!(rt; device.write(4090, b"over two pages"), Ok(()));
        assert_eq!(rt; device.sync(), Ok(()));
        assert!(rt; FileDevice::open(&rt, PATH, 2).is_err(), "it has the lock");
        assert_eq!(rt; (device.clock(), device.faults()), (2, 0));
    }
    let mut device = FileDevice::open(&rt, PATH, 3)?;
    let mut buf = [1; 16];
    assert_eq!(rt; device.read(4089, &mut buf), Ok(()));
    assert_eq!(rt; &buf, b"\0over two pages\0");
    assert_eq!(rt; device.read(3 * 4096 - 16, &mut buf), Ok(()));
    assert_eq!(rt; buf, [0; 16]);
    fs::remove_file(&rt, PATH)?;
    Ok(())
}
