// The readings of a tick.
ghost use Rattle.std.specs.Prelude.{◌≡◌};
ghost use Rattle.machine.specs.Runner.{kinds_of, put_readings};
ghost use Rattle.parts.specs.Wired.{sensors_from};

use host::host::Host;

// Puts the readings on the sensor ports, in port order.
pub fn feed<H: Host>(host: &mut H, sensors: &[u8], readings: &[i32])
    requires { sensors.now ≡ sensors_from 0 (kinds_of (H.Host.meaning host.old).sheet) }
    ensures ports { H.Host.ports host.new ≡ put_readings (kinds_of (H.Host.meaning host.old).sheet) (H.Host.ports host.old) readings.now }
    ensures same { H.Host.meaning host.new ≡ H.Host.meaning host.old }
{
    for (sensor, reading) in sensors.iter().zip(readings) {
        host.put(*sensor, *reading);
    }
}
